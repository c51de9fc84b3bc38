//! The search in a part of the table, after an entry with the text's key was found.

ghost use Rattle.std.specs.Prelude.{IfNone, slice_index_or, ◌≡◌, ◌≢◌, ◌<◌, ◌≤◌, ◌+◌, ◌-◌, ◌/◌, [], ℕ, IfSome, slice_index};
ghost use Rattle.wat_mnemonics.specs.Prelude.{IsWithin, IsFew, op_word, cmp, first, words, all_ops, op_count, Carries};
ghost use Rattle.wat_mnemonics.specs.Keys.{key as key_of};
ghost use Rattle.wat_mnemonics.specs.declared.op.Op.{Op as AnyOp};

use crate::keys::{KEYS, last_eight};
use crate::op::Op;
use crate::table::OPS;
use std::cmp::Ordering;
use wat_tokens::Parser;

/// Returns the entry of the table at an index.
fn op_at(index: usize) -> Op
    requires { index < op_count }
    ensures { result ≡ slice_index_or all_ops index first }
{
    OPS[index]
}

/// Compares the word of an entry with a text that has the same key.
#[inline(always)]
fn compared_whole(index: usize, text: &str) -> Ordering
    requires index { index < op_count }
    requires same { slice_index KEYS index ≡ key_of text.now }
    ensures { result ≡ cmp (slice_index_or words index []) text.now }
{
    let word = op_at(index).word();
    // (the first eight bytes are the same, so of up to 16 only the last eight can differ)
    if word.len() == text.len() {
        if text.len() <= 8 {
            return Ordering::Equal;
        }
        if text.len() <= 16 && last_eight(word) == last_eight(text) {
            return Ordering::Equal;
        }
    }
    if text.len() <= 8 {
        return word.len().cmp(&text.len());
    }
    word.cmp(text)
}

/// Compares the word of an entry with a text. If their keys differ, compares only the keys.
fn compared(index: usize, key: u64, text: &str) -> Ordering
    requires index { index < op_count }
    requires key { key ≡ key_of text.now }
    ensures { result ≡ cmp (slice_index_or words index []) text.now }
{
    let entry = KEYS[index];
    if entry == key {
        return compared_whole(index, text);
    }
    if entry < key {
        Ordering::Less
    } else {
        Ordering::Greater
    }
}

/// Returns the instruction with the mnemonic `text`, or None if no instruction has this mnemonic.
/// Searches only a stretch of the table: no entry outside the stretch has the mnemonic.
fn find_between(
    parser: &mut Parser<'_>,
    mut base: usize,
    mut size: usize,
    key: u64,
    text: &str,
) -> Option<Op>
    requires key { key ≡ key_of text.now }
    requires some { 0 < size }
    requires within { IsWithin base size text.now }
    ensures found { IfSome result (λ op. op_word op ≡ text.now) }
    ensures missing { IfNone result ((op : AnyOp) → op_word op ≢ text.now) }
    ensures only { parser.new ≡ record parser.old { probes = parser.new.probes } }
    ensures counts { Carries parser.old parser.new }
    ensures more { parser.old.probes ≤ parser.new.probes }
    ensures probes { (most : ℕ) → IsFew size parser.old.probes most → parser.new.probes ≤ most }
{
    'halves: while size > 1 {
        let half = size / 2;
        let index = base + half - 1;
        size -= half;
        parser.probe();
        match compared(index, key, text) {
            Ordering::Less => base += half,
            Ordering::Equal => return Some(op_at(index)),
            Ordering::Greater => {}
        }
    }
    None
}

/// Does the same as `find_between`, for a stretch whose middle entry has the key of the text.
pub(crate) fn find_whole(
    parser: &mut Parser<'_>,
    base: usize,
    size: usize,
    key: u64,
    text: &str,
) -> Option<Op>
    requires key { key ≡ key_of text.now }
    requires some { 1 < size }
    requires within { IsWithin base size text.now }
    requires same { slice_index KEYS (base + size / 2 - 1) ≡ key }
    ensures found { IfSome result (λ op. op_word op ≡ text.now) }
    ensures missing { IfNone result ((op : AnyOp) → op_word op ≢ text.now) }
    ensures only { parser.new ≡ record parser.old { probes = parser.new.probes } }
    ensures counts { Carries parser.old parser.new }
    ensures probed { parser.old.probes + 1 ≤ parser.new.probes }
    ensures probes { (most : ℕ) → IsFew size parser.old.probes most → parser.new.probes ≤ most }
{
    let half = size / 2;
    let index = base + half - 1;
    parser.probe();
    match compared_whole(index, text) {
        Ordering::Less => find_between(parser, base + half, size - half, key, text),
        Ordering::Equal => Some(op_at(index)),
        Ordering::Greater => find_between(parser, base, size - half, key, text),
    }
}
