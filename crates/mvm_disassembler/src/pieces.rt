//! The pieces of a code: each instruction by its line, or byte by byte.

ghost use Rattle.std.specs.Prelude.{◌≡◌, ◌<◌, ◌≤◌, ◌+◌, ◌-◌, ◌^◌, ◌++◌, length, IfOk, OnOk};
ghost use Rattle.mvm_disassembler.specs.Steps.{pieces_from};
ghost use Rattle.mvm_listing.specs.Disassembly.{byte_pieces, pieces, standard};

use crate::line_of::{is_usual, line_of};
use mvm_insn::insn_at;
use mvm_listing::Piece;
use std::alloc::{AllocError, Global};

/// Adds each byte as a piece of its own.
fn push_bytes(out: &mut Vec<(u32, Piece)>, at: u32, bytes: &[u8]) -> Result<(), AllocError>
    requires { at + length bytes.now < 2 ^ 32 }
    ensures { OnOk result (out.new.items ≡ out.old.items ++ byte_pieces at bytes.now) }
{
    let mut place = at;
    for byte in bytes {
        out.push((place, Piece::OneByte(*byte)))?;
        place += 1;
    }
    Ok(())
}

/// Adds the pieces of the instruction at a place, or of the byte there. It answers the place behind them.
#[tactic(auto, using(crate::proofs::Chunks::insn_behind, crate::proofs::Chunks::insn_within))]
fn push_chunk(
    alloc: Global,
    out: &mut Vec<(u32, Piece)>,
    code: &[u8],
    at: u32,
) -> Result<u32, AllocError>
    requires within { at < length code.now }
    requires small { length code.now < 2 ^ 32 }
    ensures added { IfOk result (λ next. out.new.items ++ pieces_from code.now next ≡ out.old.items ++ pieces_from code.now at) }
    ensures behind { IfOk result (λ next. at < next) }
    ensures within { IfOk result (λ next. next ≤ length code.now) }
{
    let Ok(found) = insn_at(code, at) else {
        push_bytes(out, at, &code[at as usize..at as usize + 1])?;
        return Ok(at + 1);
    };
    let bytes = &code[at as usize..found.next as usize];
    if is_usual(at, &found.insn, bytes) {
        let line = line_of(alloc, &found.insn)?;
        out.push((at, Piece::Own(line)))?;
    } else {
        push_bytes(out, at, bytes)?;
    }
    Ok(found.next)
}

/// The pieces of a code, each with its place.
pub(crate) fn pieces(alloc: Global, code: &[u8]) -> Result<Vec<(u32, Piece)>, AllocError>
    requires { length code.now < 2 ^ 32 }
    ensures { IfOk result (λ ps. ps.items ≡ pieces standard (length code.now) 0 code.now) }
{
    let mut all = Vec::new(alloc);
    let mut at = 0;
    while (at as usize) < code.len() {
        at = push_chunk(alloc, &mut all, code, at)?;
    }
    Ok(all)
}
