//! Rows with an index by their path patterns, which finds the first row that holds a path.

ghost use Rattle.std.specs.Prelude.{◌≡◌, ◌%◌, ◌<◌, ◌≤◌, true, map, vec_len, IsTrue, IfOk, OnOk};
ghost use Rattle.policy.specs.Ranges.{texts};
ghost use Rattle.policy.specs.Values.{question_view, numbered_view};
ghost use Rattle.policy.specs.Index.{mixed, hashed, buckets_view, bucket_of, has, covers_at, AreIndexed, IsIndex, HaveGrown, IsFound, NoneBefore, AreSearched, IsFirst};

use crate::numbered::NumberedRow;
use crate::questions::Question;
use std::alloc::{AllocError, Global};

/// The hash of a text with this hash and one more byte.
#[tactic(auto, unfolding(crate::specs::Index::mixed))]
fn mixed(hash: u32, byte: u8) -> u32
    ensures { result ≡ mixed hash byte }
{
    ((u64::from(hash) * 16_777_619 + u64::from(byte)) % 4_294_967_291) as u32
}

/// The hash of a text.
fn hash_of(text: &[u8]) -> u32
    ensures { result ≡ hashed 0 text.now }
{
    let mut hash = 0;
    for byte in text {
        hash = mixed(hash, *byte);
    }
    hash
}

/// The number of the bucket of the texts with this hash.
fn bucket_number(hash: u32, buckets: usize) -> usize
    requires { 0 < buckets }
    ensures number { result ≡ hash % buckets }
    ensures within { result < buckets }
{
    hash as usize % buckets
}

/// Adds the position to the bucket of the text.
fn add(buckets: &mut Vec<Vec<usize>>, text: &[u8], position: usize) -> Result<(), AllocError>
    requires { 0 < vec_len buckets.old }
    ensures grown { OnOk result
        (HaveGrown (buckets_view buckets.old.items) (buckets_view buckets.new.items)) }
    ensures added { OnOk result (IsTrue
        (has (bucket_of (buckets_view buckets.new.items) (hashed 0 text.now)) position)) }
{
    let number = bucket_number(hash_of(text), buckets.len());
    buckets[number].push(position)?;
    Ok(())
}

/// Adds the position to the bucket of each of the texts.
fn add_all(
    buckets: &mut Vec<Vec<usize>>,
    spelled: &[String],
    position: usize,
) -> Result<(), AllocError>
    requires { 0 < vec_len buckets.old }
    ensures grown { OnOk result
        (HaveGrown (buckets_view buckets.old.items) (buckets_view buckets.new.items)) }
    ensures added { OnOk result
        (AreIndexed (buckets_view buckets.new.items) position (texts spelled.now)) }
{
    for text in spelled {
        add(buckets, text.as_bytes(), position)?;
    }
    Ok(())
}

/// As many buckets as the rows have path patterns, and one more.
fn bucket_count(rows: &[NumberedRow<'_>]) -> usize
    ensures { 0 < result }
{
    let mut count: usize = 1;
    for numbered in rows {
        count = count.saturating_add(numbered.paths.len());
    }
    count
}

fn empty_buckets(alloc: Global, count: usize) -> Result<Vec<Vec<usize>>, AllocError>
    ensures { IfOk result (λ buckets. vec_len buckets ≡ count) }
{
    let mut buckets = Vec::with_capacity(alloc, count)?;
    for _ in 0..count {
        buckets.push(Vec::new(alloc))?;
    }
    Ok(buckets)
}

/// The buckets with the positions of the rows.
fn buckets_for(alloc: Global, rows: &[NumberedRow<'_>]) -> Result<Vec<Vec<usize>>, AllocError>
    ensures buckets { IfOk result (λ buckets. 0 < vec_len buckets) }
    ensures index { IfOk result (λ buckets.
        IsIndex (map numbered_view rows.now) (buckets_view buckets.items)) }
{
    let mut buckets = empty_buckets(alloc, bucket_count(rows))?;
    for (position, numbered) in rows.iter().enumerate() {
        add_all(&mut buckets, &numbered.row.paths, position)?;
    }
    Ok(buckets)
}

/// Rows, and the buckets of an index of them.
///
/// The position of a row is in the bucket of each of its path patterns. A bucket may have positions of other rows also:
/// whoever looks for a row compares the row itself.
#[derive(Debug, Drop)]
pub(crate) struct IndexedRows<'a> {
    pub rows: Vec<NumberedRow<'a>>,
    buckets: Vec<Vec<usize>>,
    pub ghost has_buckets: { 0 < vec_len buckets },
    pub ghost has_each_row: { IsIndex (map numbered_view rows.items) (buckets_view buckets.items) },
}

impl<'a> IndexedRows<'a> {
    ghost use Rattle.policy.specs.Searches.{rows_in, buckets_in};

    /// Makes the index of the rows.
    pub fn new(alloc: Global, rows: Vec<NumberedRow<'a>>) -> Result<IndexedRows<'a>, AllocError>
        ensures { IfOk result (λ indexed. indexed.rows ≡ rows.entry) }
    {
        let buckets = buckets_for(alloc, &rows)?;
        Ok(IndexedRows { rows, buckets })
    }

    /// Whether the row at the position holds the ref and the path.
    fn covers_at(&self, position: usize, question: &Question) -> bool
        ensures { result ≡ covers_at (question_view question.now) (rows_in self.now) position }
    {
        position < self.rows.len() && self.rows[position].covers_place(question)
    }

    /// The other position, if it is less than this one and its row holds the ref and the path; else this one.
    fn lesser(&self, other: usize, question: &Question, position: usize) -> usize
        requires { IsFound (question_view question.now) (rows_in self.now) position }
        ensures found { IsFound (question_view question.now) (rows_in self.now) result }
        ensures least { result ≤ position }
        ensures first { covers_at (question_view question.now) (rows_in self.now) other ≡ true
            → result ≤ other }
    {
        if other < position && self.covers_at(other, question) {
            other
        } else {
            position
        }
    }

    /// The least of the position and those of the rows in the bucket that hold the ref and the path.
    fn least(&self, hash: u32, question: &Question, position: usize) -> usize
        requires { IsFound (question_view question.now) (rows_in self.now) position }
        ensures found { IsFound (question_view question.now) (rows_in self.now) result }
        ensures least { result ≤ position }
        ensures first { NoneBefore (question_view question.now) (rows_in self.now) result
            (bucket_of (buckets_in self.now) hash) }
    {
        let mut least = position;
        for other in &self.buckets[bucket_number(hash, self.buckets.len())] {
            least = self.lesser(*other, question, least);
        }
        least
    }

    /// The same, if the byte with which the hashed text ends is a slash; else the position.
    fn least_in_folder(&self, byte: u8, hash: u32, question: &Question, position: usize) -> usize
        requires { IsFound (question_view question.now) (rows_in self.now) position }
        ensures found { IsFound (question_view question.now) (rows_in self.now) result }
        ensures least { result ≤ position }
        ensures first { byte ≡ 47 → NoneBefore (question_view question.now) (rows_in self.now) result
            (bucket_of (buckets_in self.now) hash) }
    {
        if byte == b'/' {
            self.least(hash, question, position)
        } else {
            position
        }
    }

    /// The same, in the buckets of each folder of the path and of the path.
    fn least_on_path(&self, path: &[u8], question: &Question, position: usize) -> usize
        requires { IsFound (question_view question.now) (rows_in self.now) position }
        ensures found { IsFound (question_view question.now) (rows_in self.now) result }
        ensures least { result ≤ position }
        ensures first { AreSearched (question_view question.now) (rows_in self.now)
            (buckets_in self.now) path.now result }
    {
        let mut least = position;
        let mut hash = 0;
        for byte in path {
            hash = mixed(hash, *byte);
            least = self.least_in_folder(*byte, hash, question, least);
        }
        self.least(hash, question, least)
    }

    /// The position of the first row that holds the ref and the path; the number of rows, if none does.
    pub fn first(&self, question: &Question) -> usize
        ensures { IsFirst (question_view question.now) (rows_in self.now) result }
    {
        let least = self.least(hash_of(b"*"), question, self.rows.len());
        match question.path_text() {
            Some(path) => self.least_on_path(path.as_bytes(), question, least),
            None => least,
        }
    }
}
