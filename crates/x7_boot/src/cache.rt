//! The pages of a flash that were read or used last, so that none of them is read again.
ghost use Rattle.std.specs.Prelude.{◌≡◌, ◌+◌, ◌*◌, ◌/◌, ◌%◌, ◌<◌, ◌≤◌, ◌⊎◌, ℕ, None, [], length, true, nat_eq, Contains, IfOk, OnOk, IsSome};
ghost use Rattle.std.specs.Map.{lookup};
ghost use Rattle.lru.specs.LruCache.{lru_cache};
ghost use Rattle.x7_words.specs.Flash.{FlashState, OnlyReads};
ghost use Rattle.x7_boot.specs.BlockReads.{AreAbsent, EndsBy, HasRead, HasReadBlocks, LoadsInto, TakesPages, kept_pages, numbers_of};
ghost use Rattle.x7_boot.specs.Image.{flash_limit};
ghost use Rattle.x7_boot.specs.Pages.{ArePages, FaultsCounted, HasPage, HoldsFrom, IsLoaded, IsRestOfPage, KeepsPages, LoadCalls, BlockReaches, EndsWithBlock, most_pages_at_once, page_size};
ghost use Rattle.x7_boot.specs.Reads.{FlashAnswers, HasCalled, IsSince, answers_since};

use crate::fault::BootFault;
use crate::pages::{MOST_PAGES_AT_ONCE, PAGE_SIZE, read_block};
use lru::LruCache;
use std::alloc::{AllocError, Global};
use std::mem;
use std::num::NonZeroUsize;
use x7_words::{Flash, NoMemory};

/// How many pages are kept at most (this project's choice).
const KEPT_PAGES: usize = 64;

/// Where the bytes of a page that was asked for are.
#[derive(Clone, Copy)]
pub(crate) enum Loaded {
    /// In the page, which the cache had already.
    Cached,
    /// In the block, which was read now and has this many pages from the one asked for on.
    Read(u64),
}

/// The pages of a flash that were read or used last, by their numbers.
pub(crate) struct PageCache {
    pages: LruCache<u64, Vec<u8>>,
    /// What was read from the flash last.
    block: Vec<u8>,
    /// The memory of the page that was evicted last, until a page takes it; then empty.
    spare: Vec<u8>,
    alloc: Global,
}

impl Drop for PageCache {
    fn drop(self) {
        let PageCache {
            pages: _,
            block: _,
            spare: _,
            alloc: _,
        } = self;
    }
}

impl PageCache {
    /// A cache without pages.
    pub(crate) fn new(alloc: Global) -> Result<PageCache, AllocError>
        ensures { IfOk result (λ cache. cache.pages ≡ lru_cache [] kept_pages) }
    {
        let pages = LruCache::new(alloc, NonZeroUsize::new(KEPT_PAGES).unwrap())?;
        let block = Vec::with_capacity(alloc, (MOST_PAGES_AT_ONCE * PAGE_SIZE) as usize)?;
        Ok(PageCache {
            pages,
            block,
            spare: Vec::new(alloc),
            alloc,
        })
    }

    /// Puts the page of a number into the cache, where it isn't there: it is read from the flash together with the
    /// pages after it up to the first that the cache has, sixteen in all at most.
    pub(crate) fn load<F: Flash>(&mut self, flash: &mut F, number: u64) -> Result<Loaded, BootFault>
        // the flash as the boot found it
        ghost first: { FlashState }
        requires pages { ArePages (answers_since first (F.state flash.old)) self.old.pages.entries }
        requires since { IsSince first (F.state flash.old) }
        requires attached { (F.state flash.old).attached ≡ true }
        requires within { number * page_size < (F.state flash.old).extent }
        requires limit { (F.state flash.old).extent ≤ flash_limit }
        requires kept { HasRead (answers_since first (F.state flash.old)) self.old.pages }
        ensures pages { ArePages (answers_since first (F.state flash.new)) self.new.pages.entries }
        ensures there { OnOk result (IsSome (lookup (nat_eq number) self.new.pages.entries)) }
        ensures read { IfOk result (IsLoaded (answers_since first (F.state flash.new)) number self.new.block.items) }
        ensures called { HasCalled (LoadCalls number self.new.block.items result) (F.state flash.old) (F.state flash.new) }
        ensures faults { FaultsCounted (F.state flash.old).faults (F.state flash.new).faults result }
        ensures only_reads { OnlyReads (F.state flash.old) (F.state flash.new) }
        ensures order { IfOk result (λ loaded. LoadsInto number loaded (numbers_of self.old.pages) (numbers_of self.new.pages)) }
        ensures kept { OnOk result (HasRead (answers_since first (F.state flash.new)) self.new.pages) }
        ensures blocks { HasReadBlocks (answers_since first (F.state flash.new)) }
        ensures ends { EndsBy result (answers_since first (F.state flash.new)).calls }
    {
        if self.pages.promote(&number) {
            return Ok(Loaded::Cached);
        }
        let count = self.absent_page_count(number, flash.size());
        read_block(flash, number, count, &mut self.block)?;
        let Ok(()) = self.keep_block(number, count) else {
            return Err(BootFault::NoMemory);
        };
        Ok(Loaded::Read(count))
    }

    /// How many pages to read at once, from the page of a number on: at most sixteen, none past the flash's end, and
    /// none from the first on that the cache has.
    fn absent_page_count(&self, number: u64, size: u64) -> u64
        requires within { number * page_size < size }
        requires limit { size ≤ flash_limit }
        ensures positive { 0 < result }
        ensures most { result ≤ most_pages_at_once }
        ensures within { (page : ℕ) → page < number + result → page * page_size < size }
        ensures absent { (page : ℕ) → number < page → page < number + result → lookup (nat_eq page) self.now.pages.entries ≡ None }
        ensures ends { (result ≡ most_pages_at_once)
            ⊎ ((size ≤ (number + result) * page_size) ⊎ IsSome (lookup (nat_eq (number + result)) self.now.pages.entries)) }
    {
        for page in number + 1..number + MOST_PAGES_AT_ONCE {
            if page * PAGE_SIZE >= size || self.pages.contains(&page) {
                return page - number;
            }
        }
        MOST_PAGES_AT_ONCE
    }

    /// Puts the `count` pages of the block into the cache, the first of them, page `number`, as the one used last.
    fn keep_block(&mut self, number: u64, count: u64) -> Result<(), NoMemory>
        requires positive { 0 < count }
        requires most { count ≤ most_pages_at_once }
        requires number { number ≤ flash_limit / page_size }
        requires within { count * page_size < length self.old.block.items + page_size }
        requires absent { AreAbsent number count (numbers_of self.old.pages) }
        requires room { 0 < self.old.pages.cap }
        requires fits { length (numbers_of self.old.pages) ≤ self.old.pages.cap }
        ensures pages { KeepsPages self.old.block.items number count self.old.pages.entries self.new.pages.entries }
        ensures there { OnOk result (IsSome (lookup (nat_eq number) self.new.pages.entries)) }
        ensures taken { OnOk result (TakesPages number count self.old.pages self.new.pages) }
        ensures block { self.new.block ≡ self.old.block }
    {
        let mut left = count;
        'pages: while left > 0 {
            left -= 1;
            self.keep_page(number, left)?;
        }
        Ok(())
    }

    /// Puts one page of the block into the cache, as the one used last: that at an index, from 0, where `number` is the
    /// number of the block's first page.
    fn keep_page(&mut self, number: u64, index: u64) -> Result<(), NoMemory>
        requires number { number ≤ flash_limit / page_size }
        requires index { index < most_pages_at_once }
        requires within { index * page_size < length self.old.block.items }
        requires absent { Contains (numbers_of self.old.pages) (number + index) → ⊥ }
        requires room { 0 < self.old.pages.cap }
        ensures pages { (count : ℕ) → index < count → KeepsPages self.old.block.items number count self.old.pages.entries self.new.pages.entries }
        ensures there { OnOk result (IsSome (lookup (nat_eq (number + index)) self.new.pages.entries)) }
        ensures taken { OnOk result (TakesPages (number + index) 1 self.old.pages self.new.pages) }
        ensures block { self.new.block ≡ self.old.block }
    {
        let start = (index * PAGE_SIZE) as usize;
        let end = (start + PAGE_SIZE as usize).min(self.block.len());
        let mut page = mem::replace(&mut self.spare, Vec::new(self.alloc));
        page.clear();
        let Ok(()) = page.extend_from_slice(&self.block[start..end]) else {
            return Err(NoMemory);
        };
        match self.pages.push(number + index, page) {
            Ok(Some((_, evicted))) => {
                self.spare = evicted;
                Ok(())
            }
            Ok(None) => Ok(()),
            Err(_) => Err(NoMemory),
        }
    }

    /// The bytes from a place on, whose page was loaded: to the end of the block that was read for it, or else of the
    /// page.
    pub(crate) fn bytes_from(&self, place: u64, loaded: Loaded) -> &[u8]
        requires page { HasPage self.now.pages.entries place }
        requires block { BlockReaches place self.now.block.items loaded }
        ensures holds { HoldsFrom self.now.pages.entries self.now.block.items place loaded result.now }
        ensures ends { EndsWithBlock place self.now.block.items loaded result.now }
    {
        match loaded {
            Loaded::Cached => self.rest_of_page(place),
            Loaded::Read(_) => &self.block[(place % PAGE_SIZE) as usize..],
        }
    }

    /// The bytes from a place to the end of its page, which the cache has.
    fn rest_of_page(&self, place: u64) -> &[u8]
        requires { HasPage self.now.pages.entries place }
        ensures { (flash : FlashAnswers) → ArePages flash self.now.pages.entries → place < flash.extent → IsRestOfPage flash place result.now }
    {
        match self.pages.peek(&(place / PAGE_SIZE)) {
            Some(page) => &page[(place % PAGE_SIZE) as usize..],
            None => &[],
        }
    }
}
