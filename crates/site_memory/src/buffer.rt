//! Bytes that are written into a buffer from a place on.

ghost use Rattle.std.specs.Prelude.{◌≡◌, ◌≤◌, ◌+◌, ◌-◌, ◌++◌, length, take, drop, replicate, OnOk, vec_capacity};
ghost use Rattle.site_model.specs.Told.{written};

use std::alloc::AllocError;

/// Makes room for that many bytes.
pub fn room(buf: &mut Vec<u8>, size: usize) -> Result<(), AllocError>
    ensures items { buf.new.items ≡ buf.old.items }
    ensures capacity { vec_capacity buf.old ≤ vec_capacity buf.new }
    ensures ok { OnOk result (size ≤ vec_capacity buf.new) }
{
    buf.reserve(size.saturating_sub(buf.len()))
}

/// One byte at the end of a buffer, up to that size. There is room.
fn pad(buf: &mut Vec<u8>, size: usize, byte: u8)
    requires { size ≤ vec_capacity buf.old }
    ensures items { buf.new.items ≡ buf.old.items ++ replicate (size - length buf.old.items) byte }
    ensures capacity { vec_capacity buf.old ≤ vec_capacity buf.new }
{
    if buf.len() < size && buf.resize(size, byte).is_err() {}
}

/// Bytes over others, from a place on that is there. There is room.
fn put_over(buf: &mut Vec<u8>, at: usize, bytes: &[u8])
    requires room { at + length bytes.now ≤ vec_capacity buf.old }
    requires there { at ≤ length buf.old.items }
    ensures items { buf.new.items ≡ take at buf.old.items ++ (bytes.now ++ drop (at + length bytes.now) buf.old.items) }
    ensures capacity { vec_capacity buf.old ≤ vec_capacity buf.new }
{
    let inside = bytes.len().min(buf.len() - at);
    buf[at..at + inside].copy_from_slice(&bytes[..inside]);
    if buf.extend_from_slice(&bytes[inside..]).is_err() {}
}

/// Writes bytes. There is room.
pub fn put(buf: &mut Vec<u8>, at: usize, bytes: &[u8])
    requires { at + length bytes.now ≤ vec_capacity buf.old }
    ensures items { buf.new.items ≡ written at bytes.now buf.old.items }
    ensures capacity { vec_capacity buf.old ≤ vec_capacity buf.new }
{
    pad(buf, at, 0);
    put_over(buf, at, bytes);
}

/// One byte over others, from a place on that is there. There is room.
fn fill_over(buf: &mut Vec<u8>, at: usize, n: usize, byte: u8)
    requires room { at + n ≤ vec_capacity buf.old }
    requires there { at ≤ length buf.old.items }
    ensures items { buf.new.items ≡ take at buf.old.items ++ (replicate n byte ++ drop (at + n) buf.old.items) }
    ensures capacity { vec_capacity buf.old ≤ vec_capacity buf.new }
{
    pad(buf, at + n, byte);
    buf[at..at + n].fill(byte);
}

/// Writes one byte n times. There is room.
pub fn fill(buf: &mut Vec<u8>, at: usize, n: usize, byte: u8)
    requires { at + n ≤ vec_capacity buf.old }
    ensures items { buf.new.items ≡ written at (replicate n byte) buf.old.items }
    ensures capacity { vec_capacity buf.old ≤ vec_capacity buf.new }
{
    pad(buf, at, 0);
    fill_over(buf, at, n, byte);
}

/// That the one buffer holds what the other does. There is room.
pub fn copy(from: &[u8], to: &mut Vec<u8>)
    requires { length from.now ≤ vec_capacity to.old }
    ensures items { to.new.items ≡ from.now }
    ensures capacity { vec_capacity to.old ≤ vec_capacity to.new }
{
    to.clear();
    if to.extend_from_slice(from).is_err() {}
}
