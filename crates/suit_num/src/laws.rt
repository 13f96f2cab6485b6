//! What holds of the definitions that the contracts cite. Each function does nothing: its contract
//! is the law, and `proofs/` has the same facts as lemmas.
ghost use Rattle.suit_num.specs.Laws.{PascalLaw, NoneChosenLaw, AllChosenLaw, TooManyChosenLaw, RestChosenLaw};
ghost use Rattle.suit_num.specs.Laws.{AbsorptionLaw, GcdLaw, LcmLaw, LowestTermsLaw, FractionOrderLaw};
ghost use Rattle.suit_num.specs.Laws.{IntegerProductsLaw, ExactDivisionLaw, CombinationLaw};

/// Each number of Pascal's triangle is the sum of the two above it.
pub fn pascal()
    ensures { PascalLaw }
{}

/// Nothing is chosen in one way.
pub fn none_chosen()
    ensures { NoneChosenLaw }
{}

/// All are chosen in one way.
pub fn all_chosen()
    ensures { AllChosenLaw }
{}

/// More than there are cannot be chosen.
pub fn too_many_chosen()
    ensures { TooManyChosenLaw }
{}

/// To choose some is to choose the rest.
pub fn rest_chosen()
    ensures { RestChosenLaw }
{}

/// Choose and then mark one of the chosen, or mark one and then choose the others.
pub fn absorption()
    ensures { AbsorptionLaw }
{}

/// The defined greatest common divisor is one, and there is no other.
pub fn greatest_divisor()
    ensures { GcdLaw }
{}

/// The defined least common multiple is one, and there is no other.
pub fn least_multiple()
    ensures { LcmLaw }
{}

/// Equal fractions in lowest terms have equal numerators and equal denominators.
pub fn lowest_terms()
    ensures { LowestTermsLaw }
{}

/// The order of fractions by products is transitive.
pub fn fraction_order()
    ensures { FractionOrderLaw }
{}

/// Products of integers may be regrouped, and are taken term by term of a sum or a difference.
pub fn integer_products()
    ensures { IntegerProductsLaw }
{}

/// A quotient by a divisor is exact.
pub fn exact_division()
    ensures { ExactDivisionLaw }
{}

/// A divisor of two numbers divides each combination of them.
pub fn combinations_divided()
    ensures { CombinationLaw }
{}
