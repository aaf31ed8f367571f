//! The size of a segment with which blocks fit in every order.

ghost use Rattle.std.specs.Prelude.{◌≡◌, true, ◌≤◌, ◌+◌, ◌*◌, All, IfOk, IfErr, OnOk, length};
ghost use Rattle.segment_image.specs.Shape.{is_page as is_page_of, is_size};
ghost use Rattle.segment_sizes.specs.Filling.{FitInEveryOrder};
ghost use Rattle.segment_sizes.specs.Needed.{load_over as load_of, pages_over as pages_of, needed_pages as needed_of, needed_words, FitsPage, AreTried, IsSizeFault};

use crate::fault::SizeFault;
use segment_image::layout::{BLOCK_LEAST, HEADER_WORDS, MAX_PAGE, MAX_SIZE, MIN_PAGE, PAGE_STEP};

// The words of the header and of all blocks, plus the words that each block has above a bound.
fn load_over(blocks: &[u64], bound: u64) -> u64
    requires narrow { All (FitsPage 65536) blocks.now }
    requires few { 5 * length blocks.now ≤ MAX_SIZE }
    ensures load { result ≡ load_of blocks.now bound }
    ensures small { result ≤ 16 + 131072 * length blocks.now }
{
    let mut load = HEADER_WORDS as u64;
    for block in blocks {
        load += block + block.saturating_sub(bound);
    }
    load
}

// How many pages are begun at most, by a bound.
fn pages_over(blocks: &[u64], page: u64, bound: u64) -> u64
    requires narrow { All (FitsPage 65536) blocks.now }
    requires few { 5 * length blocks.now ≤ MAX_SIZE }
    requires bound { bound ≤ page }
    requires page { page ≤ 65536 }
    ensures pages { result ≡ pages_of page blocks.now bound }
    ensures small { result ≤ 18 + 131072 * length blocks.now }
{
    let load = load_over(blocks, bound);
    if load <= page {
        1
    } else {
        2 + (load - (page + 1)) / (page + 1 - bound)
    }
}

// The fewest pages by any bound that is the words of a block, or of a page.
fn needed_pages(blocks: &[u64], page: u64) -> u64
    requires fit { All (FitsPage page) blocks.now }
    requires few { 5 * length blocks.now ≤ MAX_SIZE }
    requires page { page ≤ 65536 }
    ensures pages { result ≡ needed_of page blocks.now }
    ensures small { result ≤ 18 + 131072 * length blocks.now }
{
    let mut fewest = pages_over(blocks, page, page);
    let mut last = page;
    for bound in blocks {
        if *bound != last {
            fewest = fewest.min(pages_over(blocks, page, *bound));
            last = *bound;
        }
    }
    fewest
}

// Whether a page is valid.
fn is_page(page: u64) -> bool
    ensures { result ≡ is_page_of page }
{
    page >= MIN_PAGE && page <= MAX_PAGE && page % PAGE_STEP == 0
}

// What is wrong with a page, with blocks, or with how many they are.
fn check(blocks: &[u64], page: u64) -> Result<(), SizeFault>
    ensures ok { OnOk result (AreTried page blocks.now) }
    ensures fault { IfErr result (IsSizeFault page blocks.now) }
{
    if !is_page(page) {
        return Err(SizeFault::BadPage);
    }
    if !blocks.iter().all(|block| *block >= BLOCK_LEAST as u64) {
        return Err(SizeFault::TooSmall);
    }
    if !blocks.iter().all(|block| *block <= page) {
        return Err(SizeFault::TooLarge);
    }
    if blocks.len() as u64 > MAX_SIZE / BLOCK_LEAST as u64 {
        return Err(SizeFault::TooMany);
    }
    Ok(())
}

/// Returns a size of a segment with pages of `page` words in which blocks of these words, their headers among them, fit
/// in any order in which they are claimed [fits]. It is a valid size for the page [valid], and that of the formula
/// [words]: with one or two pages it is the least in which any order fits, and with more it may be more than the worst
/// order takes.
///
/// `BadPage` comes if the page is invalid, `TooSmall` and `TooLarge` if a block has fewer than five words or more than
/// a page, `TooMany` if a segment of the greatest size has no room for that many blocks of five words, and `NoSize` if
/// the formula gives more than the greatest size [fault].
pub fn needed_size(blocks: &[u64], page: u64) -> Result<u64, SizeFault>
    ensures fits { IfOk result (FitInEveryOrder page blocks.now) }
    ensures valid { IfOk result (λ words. is_size words page ≡ true) }
    ensures words { IfOk result (λ words. words ≡ needed_words page blocks.now) }
    ensures fault { IfErr result (IsSizeFault page blocks.now) }
{
    check(blocks, page)?;
    let size = needed_pages(blocks, page) * page;
    if size > MAX_SIZE {
        return Err(SizeFault::NoSize);
    }
    Ok(size)
}
