// The views of a program.
ghost use Rattle.std.specs.Prelude.{◌≡◌, ◌≤◌, ◌==◌, All, IfOk, count_by, filter, find, option_copied, length, map, nat_le, true, false};
ghost use Rattle.std.specs.List.Sorted.{IsPartitionPoint};
ghost use Rattle.elf_load.specs.Image.{IsSegment, is_executable};
ghost use Rattle.ins_views.specs.Views.{AreRoutines, code_view, routine_in};

use crate::code::Code;
use elf_load::{Function, Image, Segment};
use rv_isa::{Instr, is_terminator};
use std::alloc::{AllocError, Global};
use std::marker::Model;

/// A block: `len` instructions from address `head` on, the last of which alone may end a block.
#[derive(Clone, Copy, PartialEq, Eq)]
pub struct Block {
    pub head: u32,
    /// How many instructions it has, at least 1.
    pub len: u32,
}

/// What tools see of a program: its code, decoded once, and its routines, which are the functions of its symbol table in
/// code. A routine goes on to the start of the next one or to the end of its segment.
#[derive(Drop)]
pub struct Views {
    code: Vec<Code>,
    routines: Vec<Function>,
}

impl Model for Views {
    ghost use Rattle.ins_views.specs.Views.{ViewFields, IsViews};

    ghost Value = { ViewFields };

    ghost view = { λ v. record { code = v.code.items; routines = v.routines.items } };

    ghost invariant = { λ v. IsViews (record { code = v.code.items; routines = v.routines.items }) };
}

// The executable ones of these segments, decoded.
fn decoded_code(alloc: Global, segments: &[Segment]) -> Result<Vec<Code>, AllocError>
    requires { All IsSegment segments.now }
    ensures { IfOk result (λ code. code.items ≡ map code_view (filter is_executable segments.now)) }
{
    let mut code = Vec::new(alloc);
    for segment in segments {
        if segment.flags & 1 != 0 {
            code.push(Code::new(alloc, segment)?)?;
        }
    }
    Ok(code)
}

// The functions of an image again.
fn shared_functions(alloc: Global, functions: &[Function]) -> Result<Vec<Function>, AllocError>
    ensures { IfOk result (λ shared. shared.items ≡ functions.now) }
{
    let mut shared = Vec::with_capacity(alloc, functions.len())?;
    for function in functions {
        shared.push(function.share()?)?;
    }
    Ok(shared)
}

impl Views {
    ghost use Rattle.std.specs.Prelude.{◌≡◌, ◌<◌, ◌==◌, find, length, slice_get, Some, IfOk, IfSome, option_copied};
    ghost use Rattle.ins_views.specs.Views.{IsPlaced, IsViews, views_of, code_at, ins_at, routine_of};
    ghost use Rattle.ins_views.specs.Blocks.{block_at, block_length};

    /// The views of an image. Each word of its code is decoded here, once, into 8 bytes.
    pub fn new(alloc: Global, image: &Image) -> Result<Views, AllocError>
        ensures { IfOk result (λ views. views ≡ views_of image.now) }
    {
        let code = decoded_code(alloc, &image.segments)?;
        let routines = shared_functions(alloc, &image.functions)?;
        Ok(Views { code, routines })
    }

    /// The code, segment by segment in order of address.
    pub fn code(&self) -> &[Code]
        ensures items { result.now ≡ self.now.code }
        ensures sound { IsViews self.now }
    {
        &self.code
    }

    // The executable segment in which an address lies.
    #[inline(always)]
    fn code_at(&self, at: u32) -> Option<&Code>
        ensures { option_copied result ≡ code_at self.now at }
    {
        for code in &self.code {
            if code.contains(at) {
                return Some(code);
            }
        }
        None
    }

    /// The instruction at `pc`: None exactly where `pc` is no multiple of 4 whose word lies in one executable segment and
    /// decodes.
    #[inline(always)]
    #[tactic(auto, unfolding(crate::specs::Views::ins_at))]
    pub fn ins_at(&self, pc: u32) -> Option<Instr>
        ensures value { result ≡ ins_at self.now pc }
        ensures placed { IfSome result (λ _. IsPlaced pc) }
    {
        let _ = &self.code;
        if pc % 4 != 0 {
            return None;
        }
        match self.code_at(pc) {
            Some(code) => code.word_at(pc),
            None => None,
        }
    }

    /// The block at an address: None exactly where no instruction stands there. It goes on into a segment that follows
    /// without a gap.
    pub fn block_at(&self, head: u32) -> Option<Block>
        ensures { result ≡ block_at self.now head }
    {
        self.ins_at(head)?;
        let len = self.block_length(head);
        Some(Block { head, len })
    }

    // How many instructions follow one another from an address on, up to and including the first that ends a block.
    fn block_length(&self, head: u32) -> u32
        ensures { result ≡ block_length self.now head }
    {
        let mut pc = head;
        let mut len = 0;
        while let Some(i) = self.ins_at(pc) {
            len += 1;
            if is_terminator(&i) {
                return len;
            }
            pc += 4;
        }
        len
    }

    /// How many routines there are.
    pub fn routines(&self) -> u32
        ensures { result ≡ length self.now.routines }
    {
        self.routines.len() as u32
    }

    /// The `k`-th routine in order of address, counted from 0.
    pub fn routine(&self, k: u32) -> &Function
        requires { k < length self.now.routines }
        ensures { Some result.now ≡ slice_get self.now.routines k }
    {
        &self.routines[k as usize]
    }

    /// The routine that starts at an address.
    pub fn routine_at(&self, pc: u32) -> Option<&Function>
        ensures { option_copied result ≡ find (λ f. f.start == pc) self.now.routines }
    {
        routine_at(&self.routines, pc)
    }

    /// The routine in which an address lies, by its number: the last that starts at or before the address. None exactly
    /// where none starts so in the executable segment of the address, or the address lies in none.
    #[tactic(auto, unfolding(crate::specs::Views::routine_of))]
    pub fn routine_of(&self, pc: u32) -> Option<u32>
        ensures { result ≡ routine_of self.now pc }
    {
        let code = self.code_at(pc)?;
        routine_in(&self.routines, pc, code)
    }
}

// The routine that starts at an address.
fn routine_at(routines: &[Function], at: u32) -> Option<&Function>
    requires { AreRoutines routines.now }
    ensures { option_copied result ≡ find (λ f. f.start == at) routines.now }
{
    let count = count_started(routines, at);
    if count == 0 {
        return None;
    }
    let last = &routines[count - 1];
    if last.start != at {
        return None;
    }
    Some(last)
}

// The last routine that starts at or before an address, where one starts so in this segment.
fn routine_in(routines: &[Function], at: u32, code: &Code) -> Option<u32>
    requires { AreRoutines routines.now }
    ensures { result ≡ routine_in routines.now at code.now }
{
    let count = count_started(routines, at);
    if count == 0 {
        return None;
    }
    let last = &routines[count - 1];
    if last.start < code.start() {
        return None;
    }
    Some((count - 1) as u32)
}

// How many routines start at or before an address.
fn count_started(routines: &[Function], at: u32) -> usize
    requires { AreRoutines routines.now }
    ensures count { result ≡ count_by (λ f. nat_le f.start at) routines.now }
    ensures within { result ≤ length routines.now }
    ensures parts { IsPartitionPoint (λ f. nat_le f.start at ≡ true) (λ f. nat_le f.start at ≡ false)
        routines.now result }
{
    routines.partition_point(|f| f.start <= at)
}
