//! The pool: the bytes of the strings that were made, one after another, those of the top one at the end.
ghost use Rattle.std.specs.Prelude.{◌≡◌, ◌≤◌, ◌+◌, ◌++◌, if◌then◌else◌, take, drop, length, vec_len};
ghost use Rattle.std.specs.Result.{is_ok};

use std::alloc::AllocError;

/// Inserts `bytes` at `start`. Where memory is refused, nothing changes.
pub fn put_before(pool: &mut Vec<u8>, start: usize, bytes: &[u8]) -> Result<(), AllocError>
    requires { start ≤ vec_len pool.old }
    ensures { pool.new.items ≡ (if is_ok result then take start pool.old.items ++ (bytes.now ++ drop start pool.old.items) else pool.old.items) }
{
    let size = pool.len();
    pool.extend_from_slice(bytes)?;
    pool.copy_within(start..size, start + bytes.len());
    pool[start..start + bytes.len()].copy_from_slice(bytes);
    Ok(())
}

/// Appends `bytes`, and `more` after them. Where memory is refused, nothing changes.
pub fn append_two(pool: &mut Vec<u8>, bytes: &[u8], more: &[u8]) -> Result<(), AllocError>
    ensures { pool.new.items ≡ (if is_ok result then pool.old.items ++ (bytes.now ++ more.now) else pool.old.items) }
{
    let size = pool.len();
    pool.extend_from_slice(bytes)?;
    if pool.extend_from_slice(more).is_err() {
        pool.truncate(size);
        return Err(AllocError);
    }
    Ok(())
}

/// Moves the `count` bytes at `start` to the end. Where memory is refused, nothing changes.
#[tactic(auto, using(crate::proofs::Pools::turned, crate::proofs::Pools::turned_none, crate::proofs::Pools::turned_whole))]
#[inline(always)]
pub fn exchange(pool: &mut Vec<u8>, start: usize, count: usize) -> Result<(), AllocError>
    requires { start + count ≤ vec_len pool.old }
    ensures len { length pool.new.items ≡ length pool.old.items }
    ensures items { let made = drop start pool.old.items in pool.new.items
        ≡ (if is_ok result then take start pool.old.items ++ (drop count made ++ take count made) else pool.old.items) }
{
    let size = pool.len();
    if count == 0 || start + count == size {
        return Ok(());
    }
    pool.extend_from_within(start..start + count)?;
    pool.copy_within(start + count.., start);
    pool.truncate(size);
    Ok(())
}

/// Appends a copy of the bytes from `start` on. Where memory is refused, nothing changes.
#[inline(always)]
pub fn again(pool: &mut Vec<u8>, start: usize) -> Result<(), AllocError>
    requires { start ≤ vec_len pool.old }
    ensures { pool.new.items ≡ (if is_ok result then pool.old.items ++ drop start pool.old.items else pool.old.items) }
{
    if start < pool.len() {
        pool.extend_from_within(start..)?;
    }
    Ok(())
}

/// Of the bytes from `start` on `count` stay, from the one at `from` among them on.
#[inline(always)]
pub fn keep(pool: &mut Vec<u8>, start: usize, from: usize, count: usize)
    requires { start + from + count ≤ vec_len pool.old }
    ensures { pool.new.items ≡ take start pool.old.items ++ take count (drop (start + from) pool.old.items) }
{
    if from > 0 {
        pool.copy_within(start + from..start + from + count, start);
    }
    pool.truncate(start + count);
}
