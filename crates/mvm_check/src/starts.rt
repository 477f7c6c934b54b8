ghost use Rattle.std.specs.Prelude.{◌≡◌, ◌≤◌, ◌<◌, ◌^◌, ℕ, length, get_or, false, IfOk, OnOk};
ghost use Rattle.mvm_insn.specs.Insns.{insn};
ghost use Rattle.mvm_check.specs.Starts.{behind, starts_of, is_start, begins};

use mvm_base::List;
use mvm_insn::insn_at;
use std::alloc::{AllocError, Global};
use std::marker::Model;

/// The places at which the instructions of a method's code begin, in their order, and a table of marks by place.
#[derive(Debug, Drop)]
pub(crate) struct Starts {
    places: List<u32>,
    marks: Vec<bool>,
}

impl Model for Starts {
    ghost use Rattle.std.specs.Prelude.{◌≡◌, ℕ, List, get_or, false};
    ghost use Rattle.mvm_check.specs.Starts.{is_start};

    ghost Value = { List ℕ };

    ghost view = { λ s. s.places };

    ghost invariant = { λ s. (k : ℕ) → get_or s.marks.items k false ≡ is_start s.places k };
}

/// The place behind the instruction at a place, or the end of the code where none stands.
fn behind(code: &[u8], pc: u32) -> u32
    requires { length code.now < 2 ^ 32 }
    ensures { result ≡ behind (length code.now) (insn code.now pc) }
{
    match insn_at(code, pc) {
        Ok(found) => found.next,
        Err(_) => code.len() as u32,
    }
}

#[tactic(auto, unfolding(crate::specs::Starts::starts_of))]
fn places(alloc: Global, code: &[u8]) -> Result<List<u32>, AllocError>
    requires { length code.now < 2 ^ 32 }
    ensures { IfOk result (λ places. places ≡ starts_of code.now) }
{
    let mut places = List::new(alloc);
    let mut pc = 0;
    for i in 0..code.len() {
        if pc as usize >= code.len() {
            return Ok(places);
        }
        places.push(pc)?;
        pc = behind(code, pc);
    }
    Ok(places)
}

fn reach(marks: &mut Vec<bool>, at: usize) -> Result<(), AllocError>
    ensures same { (k : ℕ) → get_or marks.new.items k false ≡ get_or marks.old.items k false }
    ensures long { OnOk result (at < length marks.new.items) }
{
    while marks.len() <= at {
        marks.push(false)?;
    }
    Ok(())
}

fn marks(alloc: Global, places: &List<u32>) -> Result<Vec<bool>, AllocError>
    ensures { IfOk result (λ marks. (k : ℕ) → get_or marks.items k false ≡ is_start places.now k) }
{
    let mut marks = Vec::new(alloc);
    for place in places.as_slice() {
        let at = *place as usize;
        reach(&mut marks, at)?;
        marks[at] = true;
    }
    Ok(marks)
}

impl Starts {
    /// The starts of a method's code. It takes time and memory in proportion to the code.
    pub(crate) fn of(alloc: Global, code: &[u8]) -> Result<Starts, AllocError>
        requires { length code.now < 2 ^ 32 }
        ensures { IfOk result (λ found. found ≡ starts_of code.now) }
    {
        let places = places(alloc, code)?;
        let marks = marks(alloc, &places)?;
        Ok(Starts { places, marks })
    }

    /// The places, in their order.
    pub(crate) fn places(&self) -> &[u32]
        ensures { result.now ≡ self.now }
    {
        self.places.as_slice()
    }

    /// Whether an instruction begins at the place.
    pub(crate) fn has(&self, place: u32) -> bool
        ensures { result ≡ is_start self.now place }
    {
        match self.marks.get(place as usize) {
            Some(mark) => *mark,
            None => false,
        }
    }

    /// The same of a target, which may lie outside of the code.
    pub(crate) fn begins(&self, target: i64) -> bool
        ensures { result ≡ begins self.now target }
    {
        if target < 0 {
            return false;
        }
        match self.marks.get(target as usize) {
            Some(mark) => *mark,
            None => false,
        }
    }
}
