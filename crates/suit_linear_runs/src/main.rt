//! Runs of the simplex in small numbers on linear programs of questions. For each file that is named
//! it is told with which optimum the run ends at the pivots that the file states, and how it ends with
//! one pivot fewer.
#![tactic(auto)]

ghost use Rattle.std.specs.Prelude.{◌≡◌, ℕ};
ghost use Rattle.suit_linear.specs.Programs.{IsWellFormed};
ghost use Rattle.suit_linear.specs.Sparse.{dense};

mod formed;
mod reading;

use anyhow::{Result, bail, ensure};
use formed::is_well_formed;
use reading::read_program;
use std::alloc::Global;
use std::rt::{Env, Files};
use std::{env, fs};
use suit_linear::{Optimum, SimplexEnd, SparseProgram};
use suit_linear_fast::fast;
use suit_num::Frac;

fn main(rt: HostRuntime) -> Result<()> {
    let names: Vec<String> = env::args(&rt)?.skip(1).collect(rt.alloc())?;
    for name in names.iter() {
        let told = told_of(&rt, rt.alloc(), name.as_str())?;
        println!(rt; "{name}: {told}")?;
    }
    Ok(())
}

// What is told of the program in a file.
fn told_of(rt: &(impl Files + Alloc), alloc: Global, name: &str) -> Result<String> {
    let text = fs::read_to_string(rt, name)?;
    let (program, pivots) = read_program(alloc, text.as_str())?;
    ensure!(
        is_well_formed(alloc, &program)?,
        "the program is not well formed"
    );
    let Some(fewer) = pivots.checked_sub(1) else {
        bail!("no pivots are stated");
    };
    let full = end_of(alloc, &program, pivots)?;
    let short = end_of(alloc, &program, fewer)?;
    Ok(format!(in alloc; "{full} after {pivots} pivots; {short} after {fewer}")?)
}

// How the run in small numbers ends.
fn end_of(alloc: Global, program: &SparseProgram, pivots: u32) -> Result<String>
    requires { IsWellFormed (dense program.now) }
{
    Ok(match fast(alloc, program, pivots)? {
        None => format!(in alloc; "no answer in small numbers")?,
        Some(Ok(optimum)) => {
            let worth = worth_of(&optimum)?;
            format!(in alloc; "in small numbers: {}/{}", worth.num, worth.den)?
        }
        Some(Err(SimplexEnd::Pivots)) => format!(in alloc; "unfinished")?,
        Some(Err(end)) => format!(in alloc; "{end}")?,
    })
}

// The objective at an optimum.
fn worth_of(optimum: &Optimum) -> Result<Frac> {
    let value = optimum.value;
    let scale = optimum.scale;
    ensure!(value != i128::MIN && 0 < scale, "the objective is too wide");
    Ok(Frac::reduced(value, scale))
}
