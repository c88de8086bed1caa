// Frames that are handed out and given back.
ghost use Rattle.std.specs.Prelude.{◌++◌, ◌≡◌, ℕ, ◌+◌, ◌*◌, ◌==◌, ◌^◌, ◌<◌, ◌≤◌, ◌↔◌, true, false, length, replicate, if◌then◌else◌, slice_index, vec_capacity, IfOk, IsNone, IfNone, IfSome, OnSome};
ghost use Rattle.frame_pool.specs.Bytes.{ClearsPage, FillsPage, PutsBytes};
ghost use Rattle.frame_pool.specs.PoolState.{given_count, is_given};

use std::alloc::{AllocError, Global};
use std::marker::Model;

/// The bytes in a frame.
const FRAME_SIZE: usize = 4096;

/// A frame of 4,096 bytes that a pool handed out. Contracts see its number in the pool, and no more: a frame of another pool with the
/// same number, where that one is handed out, is taken for it.
#[derive(Drop)]
pub struct Frame {
    index: u32,
}

impl Model for Frame {
    ghost use Rattle.std.specs.Prelude.{ℕ};

    ghost Value = { ℕ };

    ghost view = { λ f. f.index };
}

/// A fixed number of frames, all of whose memory is taken by `new`: no other call takes any. The pool can end only once each
/// frame was given back.
pub struct Pool {
    /// The bytes of the frames that were handed out at some time, one after another.
    bytes: Vec<u8>,
    /// For each of these frames, whether it is handed out now.
    given: Vec<bool>,
    /// Those that are not.
    spare: Vec<u32>,
    /// How many frames there are.
    count: u32,
}

impl Model for Pool {
    ghost use Rattle.std.specs.Prelude.{◌+◌, ◌-◌, length};
    ghost use Rattle.frame_pool.specs.PoolState.{PoolState};

    ghost Value = { PoolState };

    ghost use Rattle.frame_pool.specs.Kept.{IsKept};

    ghost view = { λ p. record {
      given = p.given.items;
      bytes = p.bytes.items;
      free = length p.spare.items + (p.count - length p.given.items);
      count = p.count;
    } };

    ghost invariant = { IsKept };
}

impl Drop for Pool {
    fn drop(self)
        requires { given_count self.given ≡ 0 }
    {
        let Pool {
            bytes: _,
            given: _,
            spare: _,
            count: _,
        } = self;
    }
}

#[tactic(auto, using(crate::proofs::Rules::pool_rules))]
impl Pool {
    /// A pool of `frames` frames, all of them free.
    pub fn new(alloc: Global, frames: u32) -> Result<Pool, AllocError>
        ensures given { IfOk result (λ p. given_count p.given ≡ 0) }
        ensures free { IfOk result (λ p. p.free ≡ frames) }
        ensures count { IfOk result (λ p. p.count ≡ frames) }
    {
        Ok(Pool {
            bytes: Vec::with_capacity(alloc, FRAME_SIZE * frames as usize)?,
            given: Vec::with_capacity(alloc, frames as usize)?,
            spare: Vec::with_capacity(alloc, frames as usize)?,
            count: frames,
        })
    }

    /// Hands out a frame of zeros. None where no frame is free.
    pub fn take(&mut self) -> Option<Frame>
        ensures none { IsNone result ↔ (self.old.free ≡ 0) }
        ensures unchanged { IfNone result (self.new ≡ self.old) }
        ensures spare { IfSome result (λ f. is_given self.old f ≡ false) }
        ensures given { IfSome result (λ f. (g : ℕ) → is_given self.new g ≡ (if g == f then true else is_given self.old g)) }
        ensures bytes { IfSome result (λ f. ClearsPage self.old.bytes self.new.bytes f) }
        ensures free { OnSome result (self.new.free + 1 ≡ self.old.free) }
        ensures count { self.new.count ≡ self.old.count }
    {
        if let Some(index) = self.spare.pop() {
            self.given[index as usize] = true;
            clear_frame(&mut self.bytes, index);
            return Some(Frame { index });
        }
        let index = self.given.len() as u32;
        if index == self.count {
            return None;
        }
        self.given.push_reserved(true);
        add_zeros(&mut self.bytes);
        Some(Frame { index })
    }

    /// Hands out a frame that holds these 4,096 bytes, with no zeros written before them. None where no frame is free.
    pub fn take_copy(&mut self, source: &[u8]) -> Option<Frame>
        requires { length source.now ≡ 4096 }
        ensures none { IsNone result ↔ (self.old.free ≡ 0) }
        ensures unchanged { IfNone result (self.new ≡ self.old) }
        ensures spare { IfSome result (λ f. is_given self.old f ≡ false) }
        ensures given { IfSome result (λ f. (g : ℕ) → is_given self.new g ≡ (if g == f then true else is_given self.old g)) }
        ensures bytes { IfSome result (λ f. FillsPage self.old.bytes self.new.bytes f source.now) }
        ensures free { OnSome result (self.new.free + 1 ≡ self.old.free) }
        ensures count { self.new.count ≡ self.old.count }
    {
        if let Some(index) = self.spare.pop() {
            self.given[index as usize] = true;
            fill_frame(&mut self.bytes, index, source);
            return Some(Frame { index });
        }
        let index = self.given.len() as u32;
        if index < self.count {
            self.given.push_reserved(true);
            add_bytes(&mut self.bytes, source);
            return Some(Frame { index });
        }
        None
    }

    /// Takes a frame of this pool back.
    pub fn give(&mut self, frame: Frame)
        requires { is_given self.old frame ≡ true }
        ensures given { (g : ℕ) → is_given self.new g ≡ (if g == frame then false else is_given self.old g) }
        ensures bytes { self.new.bytes ≡ self.old.bytes }
        ensures free { self.new.free ≡ self.old.free + 1 }
        ensures count { self.new.count ≡ self.old.count }
    {
        let Frame { index } = frame;
        self.given[index as usize] = false;
        self.spare.push_reserved(index);
    }

    /// Takes all frames back at once. Those that are handed out are of this pool no longer.
    pub fn give_all(&mut self)
        ensures given { given_count self.new.given ≡ 0 }
        ensures free { self.new.free ≡ self.old.count }
        ensures count { self.new.count ≡ self.old.count }
    {
        self.bytes.clear();
        self.given.clear();
        self.spare.clear();
    }

    /// The bytes of a frame of this pool.
    #[inline(always)]
    pub fn bytes(&self, frame: &Frame) -> &[u8]
        requires { is_given self.now frame.now ≡ true }
        ensures len { length result.now ≡ 4096 }
        ensures bytes { (i : ℕ) → i < 4096 → slice_index result.now i ≡ slice_index self.now.bytes (4096 * frame.now + i) }
    {
        let from = FRAME_SIZE * frame.index as usize;
        &self.bytes[from..from + FRAME_SIZE]
    }

    /// Writes bytes into a frame of this pool, from its byte `at` on.
    #[inline(always)]
    pub fn set(&mut self, frame: &Frame, at: u32, bytes: &[u8])
        requires frame { is_given self.old frame.now ≡ true }
        requires range { at + length bytes.now ≤ 4096 }
        ensures bytes { PutsBytes self.old.bytes self.new.bytes (4096 * frame.now + at) bytes.now }
        ensures given { self.new.given ≡ self.old.given }
        ensures free { self.new.free ≡ self.old.free }
        ensures count { self.new.count ≡ self.old.count }
    {
        let from = FRAME_SIZE * frame.index as usize + at as usize;
        put(&mut self.bytes, from, bytes);
    }

    /// How many frames are free. With those that are handed out these are all.
    pub fn free(&self) -> u32
        ensures free { result ≡ self.now.free }
        ensures adds_up { given_count self.now.given + result ≡ self.now.count }
    {
        self.spare.len() as u32 + (self.count - self.given.len() as u32)
    }
}

// Adds a frame of zeros behind the others.
fn add_zeros(bytes: &mut Vec<u8>)
    requires few { length bytes.old.items < 2 ^ 48 }
    requires room { length bytes.old.items + 4096 ≤ vec_capacity bytes.old }
    ensures items { bytes.new.items ≡ bytes.old.items ++ replicate 4096 0 }
    ensures capacity { vec_capacity bytes.old ≤ vec_capacity bytes.new }
{
    bytes.resize(bytes.len() + FRAME_SIZE, 0).unwrap();
}

// Adds a frame of these bytes behind the others.
fn add_bytes(bytes: &mut Vec<u8>, source: &[u8])
    requires room { length bytes.old.items + length source.now ≤ vec_capacity bytes.old }
    ensures items { bytes.new.items ≡ bytes.old.items ++ source.now }
    ensures capacity { vec_capacity bytes.old ≤ vec_capacity bytes.new }
{
    bytes.extend_from_slice(source).unwrap();
}

// The bytes of a frame are these from now on.
fn fill_frame(bytes: &mut Vec<u8>, index: u32, source: &[u8])
    requires frame { 4096 * (index + 1) ≤ length bytes.old.items }
    requires len { length source.now ≡ 4096 }
    ensures bytes { FillsPage bytes.old.items bytes.new.items index source.now }
    ensures len { length bytes.new.items ≡ length bytes.old.items }
    ensures capacity { vec_capacity bytes.new ≡ vec_capacity bytes.old }
{
    put(bytes, FRAME_SIZE * index as usize, source);
}

// The bytes of a frame are 0 from now on.
fn clear_frame(bytes: &mut Vec<u8>, index: u32)
    requires { 4096 * (index + 1) ≤ length bytes.old.items }
    ensures bytes { ClearsPage bytes.old.items bytes.new.items index }
    ensures len { length bytes.new.items ≡ length bytes.old.items }
    ensures capacity { vec_capacity bytes.new ≡ vec_capacity bytes.old }
{
    let from = FRAME_SIZE * index as usize;
    for i in 0..FRAME_SIZE {
        bytes[from + i] = 0;
    }
}

// Puts the source over the bytes from `from` on.
#[inline(always)]
fn put(bytes: &mut Vec<u8>, from: usize, source: &[u8])
    requires range { from + length source.now ≤ length bytes.old.items }
    ensures bytes { PutsBytes bytes.old.items bytes.new.items from source.now }
    ensures len { length bytes.new.items ≡ length bytes.old.items }
    ensures capacity { vec_capacity bytes.new ≡ vec_capacity bytes.old }
{
    for i in 0..source.len() {
        bytes[from + i] = source[i];
    }
}
