//! Laws of the class layouts: each is the contract of an empty function.
ghost use Rattle.suit_layouts.specs.ClassLaws.{ClassWeightsCounted, ClassLayoutsRise, ClassLayoutsExact};
ghost use Rattle.suit_layouts.specs.ClassLaws.{ClassLayoutsFew, LayoutsGrouped, LayoutsCounted, CountsAddUp};
ghost use Rattle.suit_layouts.specs.ClassLaws.{LayoutsListed, ClassLayoutsHeld, ClassWeightsAddUp};

/// A class layout weighs as much as one of its layouts, times the ways to choose West's cards.
pub fn class_weights_counted()
    ensures { ClassWeightsCounted }
{}

/// The class layouts stand in strictly rising lexicographic order.
pub fn class_layouts_rise()
    ensures { ClassLayoutsRise }
{}

/// Exactly the counts that have a weight are class layouts, each with its weight.
pub fn class_layouts_exact()
    ensures { ClassLayoutsExact }
{}

/// There are at most `MOST_CLASS_LAYOUTS` class layouts.
pub fn class_layouts_few()
    ensures { ClassLayoutsFew }
{}

/// What depends on West's counts alone may be summed over class layouts in place of layouts.
pub fn layouts_grouped()
    ensures { LayoutsGrouped }
{}

/// As many layouts have given counts as the ways of the blocks.
pub fn layouts_counted()
    ensures { LayoutsCounted }
{}

/// West's counts in a layout add up to the number of West's cards.
pub fn counts_add_up()
    ensures { CountsAddUp }
{}

/// The counts of a layout that has a weight are a class layout that has one.
pub fn layouts_listed()
    ensures { LayoutsListed }
{}

/// A class layout that has a weight is the counts of some layout that has one.
pub fn class_layouts_held()
    ensures { ClassLayoutsHeld }
{}

/// The weights of the class layouts add up to the total.
pub fn class_weights_add_up()
    ensures { ClassWeightsAddUp }
{}
