ghost use Rattle.std.specs.Prelude.{◌≡◌, [], ◌∷◌, ◌+◌, ◌<◌, ◌≤◌, ◌^◌, ◌-◌, length, slice_get, slice_set, Some, IfOk, IfNone, IfSome, OnSome, OnErr, IsSome, drop, option_map};
ghost use Rattle.mvm_base.specs.Answers.{Does, Gives};
ghost use Rattle.mvm_frame.specs.Calls.{framed, refusal, put_one, put_long, push, pop, pop_one, pop_two, an_int, a_ref, store_one, store_long, loaded, loaded_int, loaded_long, loaded_ref, store, shuffle_slots, freed, enter, fits, place_of, room_of};
ghost use Rattle.mvm_frame.specs.Parts.{frames_of, stack_with};
ghost use Rattle.mvm_frame.specs.ShuffleRows.{shuffle_of};

use crate::key::FrameKey;
use crate::lay::lay;
use crate::place::Place;
use crate::refused::Refused;
use crate::rows::{Row, Rows};
use crate::shuffle_rows::{Shuffle, shuffle_of};
use crate::shuffles::{grown, moved, needed};
use crate::slot::Slot;
use mvm_base::{Kind, OutOfMemory, Word};
use std::alloc::Global;
use std::marker::Model;

/// The frames of one thread (JVM Specification 2.6), in one array of slots. All its memory is taken by [`Stack::new`]; no other call
/// takes any. Without a frame, each call that can be refused, but `enter` and `enter_with`, answers `NoFrame`. Refused, the
/// stack is as before.
#[derive(Debug, Drop)]
pub struct Stack {
    slots: Vec<Slot>,
    top: Row,
    callers: Rows,
}

impl Model for Stack {
    ghost use Rattle.mvm_frame.specs.Parts.{StackParts};
    ghost use Rattle.mvm_frame.specs.Laid.{stack_of, Stands};

    ghost Value = { StackParts };

    ghost view = { λ s. stack_of s.top s.callers s.slots.items };

    ghost invariant = { λ s. Stands s.top s.callers.rows s.slots.items };
}

impl Stack {
    /// A stack without a frame, with room for so many frames of together so many words: slots of local variables, and depths
    /// of operand stacks.
    pub fn new(alloc: Global, frames: u32, words: u32) -> Result<Stack, OutOfMemory>
        ensures { IfOk result (λ s. s ≡ stack_with [] frames words) }
    {
        let end = words as usize;
        let key = FrameKey {
            mirror: 0,
            method: 0,
            lock: None,
        };
        let top = Row {
            key,
            pc: 0,
            floor: end,
            sp: end,
            bottom: end,
            base: end,
        };
        let callers = Rows::new(alloc, frames as usize, top)?;
        Ok(Stack {
            slots: vec![in alloc; Slot::Unset; end]?,
            top,
            callers,
        })
    }

    /// What the top frame runs; `None` exactly where there is no frame.
    pub fn top(&self) -> Option<FrameKey>
        ensures { result ≡ self.now.rest.below.key }
    {
        if self.callers.is_empty() {
            None
        } else {
            Some(self.top.key)
        }
    }

    /// How many frames there are, the top one among them.
    pub fn frames(&self) -> usize
        ensures is { result ≡ length (frames_of self.now) }
        ensures within { result ≤ self.now.rest.below.most }
    {
        self.callers.len()
    }

    /// What a caller runs, and its pc: at 0 the frame below the top one, at 1 the one below that, and so on. `None` exactly where
    /// there are not so many.
    pub fn caller(&self, at: usize) -> Option<Place>
        ensures is { result ≡ option_map place_of (slice_get self.now.rest.below.callers at) }
        ensures frame { IsSome result → IsSome self.now.rest.below.key }
    {
        match self.callers.waiting(at) {
            Some(row) => Some(Place {
                key: row.key,
                pc: row.pc,
            }),
            None => None,
        }
    }

    /// How many slots of operands the top frame has.
    pub fn depth(&self) -> usize
        ensures is { result ≡ length self.now.operands.slots }
        ensures frame { 0 < result → IsSome self.now.rest.below.key }
    {
        self.top.bottom - self.top.sp
    }

    /// How many more slots of operands fit into the top frame.
    pub fn room(&self) -> usize
        ensures is { result ≡ self.now.operands.depth - length self.now.operands.slots }
        ensures within { length self.now.operands.slots ≤ self.now.operands.depth }
        ensures frame { 0 < result → IsSome self.now.rest.below.key }
    {
        self.top.sp - self.top.floor
    }

    /// Puts a slot on top.
    #[inline]
    pub(crate) fn put(&mut self, slot: Slot)
        requires { length self.old.operands.slots < self.old.operands.depth }
        ensures operands { self.new.operands ≡ record self.old.operands { slots = slot ∷ self.old.operands.slots } }
        ensures rest { self.new.rest ≡ self.old.rest }
    {
        let sp = self.top.sp - 1;
        self.slots[sp] = slot;
        self.top.sp = sp;
    }

    /// Takes the top slot.
    #[inline]
    pub(crate) fn take(&mut self) -> Slot
        requires { 0 < length self.old.operands.slots }
        ensures slots { self.old.operands.slots ≡ result ∷ self.new.operands.slots }
        ensures depth { self.new.operands.depth ≡ self.old.operands.depth }
        ensures rest { self.new.rest ≡ self.old.rest }
    {
        let sp = self.top.sp;
        self.top.sp = sp + 1;
        self.slots[sp]
    }

    /// The slot of operands at a place, counted from the top one. There are more slots than that.
    #[inline]
    pub fn peek(&self, at: usize) -> Slot
        requires { at < length self.now.operands.slots }
        ensures { slice_get self.now.operands.slots at ≡ Some result }
    {
        self.slots[self.top.sp + at]
    }

    /// Takes off so many slots of operands; there are so many. Who calls it sees to it that no long is cut.
    pub fn drop_slots(&mut self, count: usize)
        requires { count ≤ length self.old.operands.slots }
        ensures operands { self.new.operands ≡ record self.old.operands { slots = drop count self.old.operands.slots } }
        ensures rest { self.new.rest ≡ self.old.rest }
    {
        self.top.sp += count;
    }

    /// Takes all operands off the top frame.
    pub fn clear(&mut self)
        ensures operands { self.new.operands ≡ record self.old.operands { slots = [] } }
        ensures rest { self.new.rest ≡ self.old.rest }
    {
        self.top.sp = self.top.bottom;
    }

    /// The pc of the top frame; there is a frame.
    pub fn pc(&self) -> u32
        requires { IsSome self.now.rest.below.key }
        ensures { result ≡ self.now.rest.pc }
    {
        self.top.pc
    }

    /// Sets the pc of the top frame; there is a frame.
    pub fn set_pc(&mut self, pc: u32)
        requires { IsSome self.old.rest.below.key }
        ensures operands { self.new.operands ≡ self.old.operands }
        ensures rest { self.new.rest ≡ record self.old.rest { pc = pc } }
    {
        self.top.pc = pc;
    }

    /// What a local variable holds, if there is one of that number.
    fn local(&self, at: usize) -> Option<Slot>
        ensures is { result ≡ slice_get self.now.rest.locals at }
        ensures frame { IsSome result → IsSome self.now.rest.below.key }
    {
        if at < self.top.base - self.top.bottom {
            Some(self.slots[self.top.bottom + at])
        } else {
            None
        }
    }

    /// How many local variables there are.
    fn locals(&self) -> usize
        ensures is { result ≡ length self.now.rest.locals }
        ensures few { result < 2 ^ 32 }
        ensures frame { 0 < result → IsSome self.now.rest.below.key }
    {
        self.top.base - self.top.bottom
    }

    fn set_local(&mut self, at: usize, slot: Slot)
        requires { at < length self.old.rest.locals }
        ensures operands { self.new.operands ≡ self.old.operands }
        ensures rest { self.new.rest ≡ record self.old.rest { locals = slice_set self.old.rest.locals at slot } }
    {
        let place = self.top.bottom + at;
        self.slots[place] = slot;
    }

    /// Takes the top frame off, and tells what it ran; `None` exactly where there is no frame.
    pub fn leave(&mut self) -> Option<FrameKey>
        ensures key { result ≡ self.old.rest.below.key }
        ensures none { IfNone result (self.new ≡ self.old) }
        ensures some { OnSome result (self.new ≡ stack_with self.old.rest.below.callers self.old.rest.below.most self.old.rest.below.words) }
    {
        match self.callers.pop() {
            Some(row) => {
                let key = self.top.key;
                self.top = row;
                Some(key)
            }
            None => None,
        }
    }

    /// Whether a frame of so many local variables and so deep an operand stack fits within the limits (JVM Specification 2.5.2):
    /// `enter` and `enter_with` answer `Full` exactly where it does not.
    #[inline]
    pub fn fits(&self, locals: u16, depth: u16) -> bool
        ensures { result ≡ fits locals depth self.now }
    {
        !self.callers.is_full() && locals as usize + depth as usize <= self.top.floor
    }

    /// The same where the top frame, which there is, is left first.
    pub fn fits_instead(&self, locals: u16, depth: u16) -> bool
        requires { IsSome self.now.rest.below.key }
        ensures { result ≡ fits locals depth (stack_with self.now.rest.below.callers self.now.rest.below.most self.now.rest.below.words) }
    {
        // There are no more frames than there may be.
        let _frames = self.callers.len();
        locals as usize + depth as usize <= self.top.base
    }

    /// A new frame on top, with pc 0 and no operand, whose first local variables are so many slots of operands of the frame
    /// below, which go from there; the others are unset (JVM Specification 2.6.1). `Full` where the frames or the words would pass
    /// their limit. There are so many operands and local variables. Who calls it sees to it that no long is cut.
    #[tactic(auto, unfolding(crate::specs::Calls::enter))]
    pub fn enter_with(
        &mut self,
        key: FrameKey,
        locals: u16,
        depth: u16,
        args: u16,
    ) -> Result<(), Refused>
        requires locals { args ≤ locals }
        requires operands { args ≤ length self.old.operands.slots }
        ensures does { Does result (enter key locals depth args self.old) self.new }
        ensures err { OnErr result (self.new ≡ self.old) }
    {
        if !self.fits(locals, depth) {
            return Err(Refused::Full);
        }
        let args = args as usize;
        let base = self.top.floor;
        let bottom = base - locals as usize;
        let sp = self.top.sp;
        lay(&mut self.slots, sp, args, bottom, base);
        self.top.sp = sp + args;
        self.callers.push(self.top);
        self.top = Row {
            key,
            pc: 0,
            floor: bottom - depth as usize,
            sp: bottom,
            bottom,
            base,
        };
        Ok(())
    }

    /// A new frame on top, with pc 0, no operand, and local variables that are unset (JVM Specification 2.6). `Full` where the frames
    /// or the words would pass their limit.
    pub fn enter(&mut self, key: FrameKey, locals: u16, depth: u16) -> Result<(), Refused>
        ensures does { Does result (enter key locals depth 0 self.old) self.new }
        ensures err { OnErr result (self.new ≡ self.old) }
    {
        self.enter_with(key, locals, depth, 0)
    }

    #[tactic(auto, unfolding(crate::specs::Calls::refusal))]
    pub(crate) fn no_frame_or(&self, refused: Refused) -> Refused
        ensures { result ≡ refusal self.now.rest.below refused }
    {
        match self.top() {
            None => Refused::NoFrame,
            Some(_) => refused,
        }
    }

    #[tactic(auto, using(crate::proofs::Framed::framed_rules))]
    #[inline]
    fn put_one(&mut self, slot: Slot) -> Result<(), Refused>
        ensures does { Does result (framed self.old.rest.below (put_one slot self.old.operands)) self.new.operands }
        ensures depth { self.new.operands.depth ≡ self.old.operands.depth }
        ensures rest { self.new.rest ≡ self.old.rest }
        ensures err { OnErr result (self.new ≡ self.old) }
    {
        if self.room() == 0 {
            return Err(self.no_frame_or(Refused::Overflow));
        }
        self.put(slot);
        Ok(())
    }

    #[tactic(auto, using(crate::proofs::Framed::framed_rules))]
    fn put_long(&mut self, value: i64) -> Result<(), Refused>
        ensures does { Does result (framed self.old.rest.below (put_long value self.old.operands)) self.new.operands }
        ensures depth { self.new.operands.depth ≡ self.old.operands.depth }
        ensures rest { self.new.rest ≡ self.old.rest }
        ensures err { OnErr result (self.new ≡ self.old) }
    {
        if self.room() < 2 {
            return Err(self.no_frame_or(Refused::Overflow));
        }
        self.put(Slot::Long(value));
        self.put(Slot::Half);
        Ok(())
    }

    /// Puts a value on top, of a long two slots (JVM Specification 2.6.2). `Overflow` where the depth would be passed.
    #[tactic(auto, unfolding(crate::specs::Calls::push))]
    #[inline]
    pub fn push(&mut self, word: Word) -> Result<(), Refused>
        ensures does { Does result (framed self.old.rest.below (push word self.old.operands)) self.new.operands }
        ensures depth { self.new.operands.depth ≡ self.old.operands.depth }
        ensures rest { self.new.rest ≡ self.old.rest }
        ensures err { OnErr result (self.new ≡ self.old) }
    {
        match word {
            Word::Int(value) => self.put_one(Slot::Int(value)),
            Word::Long(value) => self.put_long(value),
            Word::Ref(object) => self.put_one(Slot::Ref(object)),
            Word::Null => self.put_one(Slot::Null),
        }
    }

    #[tactic(auto, using(crate::proofs::Framed::framed_rules))]
    #[inline]
    fn pop_int(&mut self) -> Result<Word, Refused>
        ensures does { Gives result (framed self.old.rest.below (pop_one an_int self.old.operands.depth self.old.operands.slots)) self.new.operands }
        ensures depth { self.new.operands.depth ≡ self.old.operands.depth }
        ensures rest { self.new.rest ≡ self.old.rest }
        ensures err { OnErr result (self.new ≡ self.old) }
    {
        if self.depth() == 0 {
            return Err(self.no_frame_or(Refused::Underflow));
        }
        let Slot::Int(value) = self.peek(0) else {
            return Err(Refused::Kind);
        };
        self.take();
        Ok(Word::Int(value))
    }

    #[tactic(auto, using(crate::proofs::Framed::framed_rules))]
    fn pop_ref(&mut self) -> Result<Word, Refused>
        ensures does { Gives result (framed self.old.rest.below (pop_one a_ref self.old.operands.depth self.old.operands.slots)) self.new.operands }
        ensures depth { self.new.operands.depth ≡ self.old.operands.depth }
        ensures rest { self.new.rest ≡ self.old.rest }
        ensures err { OnErr result (self.new ≡ self.old) }
    {
        if self.depth() == 0 {
            return Err(self.no_frame_or(Refused::Underflow));
        }
        let word = match self.peek(0) {
            Slot::Ref(object) => Word::Ref(object),
            Slot::Null => Word::Null,
            Slot::Unset | Slot::Half | Slot::Int(_) | Slot::Long(_) => return Err(Refused::Kind),
        };
        self.take();
        Ok(word)
    }

    #[tactic(auto, using(crate::proofs::Framed::framed_rules))]
    fn pop_long(&mut self) -> Result<Word, Refused>
        ensures does { Gives result (framed self.old.rest.below (pop_two self.old.operands.depth self.old.operands.slots)) self.new.operands }
        ensures depth { self.new.operands.depth ≡ self.old.operands.depth }
        ensures rest { self.new.rest ≡ self.old.rest }
        ensures err { OnErr result (self.new ≡ self.old) }
    {
        if self.depth() < 2 {
            return Err(self.no_frame_or(Refused::Underflow));
        }
        match (self.peek(0), self.peek(1)) {
            (Slot::Half, Slot::Long(value)) => {
                self.take();
                self.take();
                Ok(Word::Long(value))
            }
            _ => Err(Refused::Kind),
        }
    }

    /// Takes the value of that kind that is on top. `Underflow` where there are too few slots, else `Kind` where the value is of
    /// another kind.
    #[tactic(auto, unfolding(crate::specs::Calls::pop))]
    #[inline]
    pub fn pop(&mut self, kind: Kind) -> Result<Word, Refused>
        ensures does { Gives result (framed self.old.rest.below (pop kind self.old.operands)) self.new.operands }
        ensures depth { self.new.operands.depth ≡ self.old.operands.depth }
        ensures rest { self.new.rest ≡ self.old.rest }
        ensures err { OnErr result (self.new ≡ self.old) }
    {
        match kind {
            Kind::Int => self.pop_int(),
            Kind::Long => self.pop_long(),
            Kind::Ref => self.pop_ref(),
        }
    }

    #[tactic(auto, using(crate::proofs::Framed::framed_rules))]
    #[inline]
    fn load_int(&self, local: usize) -> Result<Word, Refused>
        ensures { result ≡ framed self.now.rest.below (loaded_int (slice_get self.now.rest.locals local)) }
    {
        match self.local(local) {
            Some(Slot::Int(value)) => Ok(Word::Int(value)),
            Some(Slot::Unset | Slot::Half | Slot::Long(_) | Slot::Ref(_) | Slot::Null) | None => {
                Err(self.no_frame_or(Refused::Kind))
            }
        }
    }

    #[tactic(auto, using(crate::proofs::Framed::framed_rules))]
    fn load_long(&self, local: usize) -> Result<Word, Refused>
        ensures { result ≡ framed self.now.rest.below (loaded_long (slice_get self.now.rest.locals local)) }
    {
        match self.local(local) {
            Some(Slot::Long(value)) => Ok(Word::Long(value)),
            Some(Slot::Unset | Slot::Half | Slot::Int(_) | Slot::Ref(_) | Slot::Null) | None => {
                Err(self.no_frame_or(Refused::Kind))
            }
        }
    }

    #[tactic(auto, using(crate::proofs::Framed::framed_rules))]
    fn load_ref(&self, local: usize) -> Result<Word, Refused>
        ensures { result ≡ framed self.now.rest.below (loaded_ref (slice_get self.now.rest.locals local)) }
    {
        match self.local(local) {
            Some(Slot::Ref(object)) => Ok(Word::Ref(object)),
            Some(Slot::Null) => Ok(Word::Null),
            Some(Slot::Unset | Slot::Half | Slot::Int(_) | Slot::Long(_)) | None => {
                Err(self.no_frame_or(Refused::Kind))
            }
        }
    }

    /// The value of that kind in a local variable, of a long in that one and the next (JVM Specification 2.6.1). `Kind` where there
    /// is no such variable, or it holds no value of that kind.
    #[tactic(auto, unfolding(crate::specs::Calls::loaded))]
    #[inline]
    pub fn load(&self, local: u16, kind: Kind) -> Result<Word, Refused>
        ensures { result ≡ framed self.now.rest.below (loaded kind (slice_get self.now.rest.locals local)) }
    {
        match kind {
            Kind::Int => self.load_int(local as usize),
            Kind::Long => self.load_long(local as usize),
            Kind::Ref => self.load_ref(local as usize),
        }
    }

    /// Unsets the other half of a long, if a half of one stands there.
    #[tactic(auto, unfolding(crate::specs::Calls::freed))]
    #[inline]
    fn free(&mut self, at: usize)
        requires { at < length self.old.rest.locals }
        ensures operands { self.new.operands ≡ self.old.operands }
        ensures rest { self.new.rest ≡ record self.old.rest { locals = freed at self.old.rest.locals } }
        ensures len { length self.new.rest.locals ≡ length self.old.rest.locals }
    {
        match self.local(at) {
            Some(Slot::Half) => self.set_local(at.saturating_sub(1), Slot::Unset),
            Some(Slot::Long(_)) => {
                let locals = self.locals();
                if at + 1 < locals {
                    self.set_local(at + 1, Slot::Unset);
                }
            }
            Some(Slot::Unset | Slot::Int(_) | Slot::Ref(_) | Slot::Null) | None => {}
        }
    }

    #[tactic(auto, using(crate::proofs::Framed::framed_rules))]
    #[inline]
    fn store_one(&mut self, at: usize, slot: Slot) -> Result<(), Refused>
        ensures operands { self.new.operands ≡ self.old.operands }
        ensures does { Does result (framed self.old.rest.below (store_one at slot self.old.rest.locals)) self.new.rest.locals }
        ensures rest { self.new.rest ≡ record self.old.rest { locals = self.new.rest.locals } }
        ensures err { OnErr result (self.new ≡ self.old) }
    {
        if at >= self.locals() {
            return Err(self.no_frame_or(Refused::Kind));
        }
        self.free(at);
        self.set_local(at, slot);
        Ok(())
    }

    #[tactic(auto, using(crate::proofs::Framed::framed_rules))]
    fn store_long(&mut self, at: usize, value: i64) -> Result<(), Refused>
        ensures operands { self.new.operands ≡ self.old.operands }
        ensures does { Does result (framed self.old.rest.below (store_long at value self.old.rest.locals)) self.new.rest.locals }
        ensures rest { self.new.rest ≡ record self.old.rest { locals = self.new.rest.locals } }
        ensures err { OnErr result (self.new ≡ self.old) }
    {
        let locals = self.locals();
        if locals == 0 || at >= locals - 1 {
            return Err(self.no_frame_or(Refused::Kind));
        }
        self.free(at);
        self.free(at + 1);
        self.set_local(at, Slot::Long(value));
        self.set_local(at + 1, Slot::Half);
        Ok(())
    }

    /// Sets a local variable, and the one behind it where the value is a long (JVM Specification 2.6.1). Of a long that stood there
    /// and of which only one slot is overwritten, the other slot is unset. `Kind` where there is no such variable.
    #[tactic(auto, unfolding(crate::specs::Calls::store))]
    #[inline]
    pub fn store(&mut self, local: u16, word: Word) -> Result<(), Refused>
        ensures operands { self.new.operands ≡ self.old.operands }
        ensures does { Does result (framed self.old.rest.below (store local word self.old.rest.locals)) self.new.rest.locals }
        ensures rest { self.new.rest ≡ record self.old.rest { locals = self.new.rest.locals } }
        ensures err { OnErr result (self.new ≡ self.old) }
    {
        let at = local as usize;
        match word {
            Word::Int(value) => self.store_one(at, Slot::Int(value)),
            Word::Long(value) => self.store_long(at, value),
            Word::Ref(object) => self.store_one(at, Slot::Ref(object)),
            Word::Null => self.store_one(at, Slot::Null),
        }
    }

    /// How many more slots of operands fit into the frame that waits for the top one; `None` where none waits.
    pub fn waiting_room(&self) -> Option<usize>
        ensures { result ≡ room_of self.now.rest.below.callers }
    {
        match self.callers.waiting(0) {
            Some(row) => Some(row.sp - row.floor),
            None => None,
        }
    }

    #[tactic(auto, unfolding(crate::specs::Calls::shuffle_slots), using(crate::proofs::Framed::framed_rules))]
    fn shuffle_by(&mut self, shuffle: Shuffle) -> Result<(), Refused>
        ensures does { Does result (framed self.old.rest.below (shuffle_slots shuffle self.old.operands)) self.new.operands }
        ensures depth { self.new.operands.depth ≡ self.old.operands.depth }
        ensures rest { self.new.rest ≡ self.old.rest }
        ensures err { OnErr result (self.new ≡ self.old) }
    {
        let depth = self.depth();
        if self.room() < grown(shuffle) {
            return Err(self.no_frame_or(Refused::Overflow));
        }
        if depth < needed(shuffle) {
            return Err(self.no_frame_or(Refused::Underflow));
        }
        moved(self, shuffle)
    }

    /// Moves the operands on top as the instruction of that opcode does, `pop` to `swap` (JVM Specification 6.5). Refused
    /// where the operands would pass the depth, where there are too few of them, and where a long would be cut. `op` is such
    /// an opcode.
    pub fn shuffle(&mut self, op: u8) -> Result<(), Refused>
        requires { IsSome (shuffle_of op) }
        ensures does { IfSome (shuffle_of op) (λ shuffle. Does result (framed self.old.rest.below (shuffle_slots shuffle self.old.operands)) self.new.operands) }
        ensures depth { self.new.operands.depth ≡ self.old.operands.depth }
        ensures rest { self.new.rest ≡ self.old.rest }
        ensures err { OnErr result (self.new ≡ self.old) }
    {
        match shuffle_of(op) {
            Some(shuffle) => self.shuffle_by(shuffle),
            None => unreachable!(),
        }
    }

    /// Puts an int on top, as [`Stack::push`] does.
    #[tactic(auto, unfolding(crate::specs::Calls::push))]
    #[inline]
    pub fn push_int(&mut self, value: i32) -> Result<(), Refused>
        ensures does { Does result (framed self.old.rest.below (push (Word.Int value) self.old.operands)) self.new.operands }
        ensures depth { self.new.operands.depth ≡ self.old.operands.depth }
        ensures rest { self.new.rest ≡ self.old.rest }
        ensures err { OnErr result (self.new ≡ self.old) }
    {
        self.put_one(Slot::Int(value))
    }
}
