//! The tracks that a book keeps, one under a name; the one last removed or evicted is set aside, to be freed elsewhere.
ghost use Rattle.std.specs.Prelude.{◌≡◌, ◌⊎◌, ◌≤◌, [], option_copied, OnOk, OnErr, if◌then◌else◌};
ghost use Rattle.std.specs.NonZero.{non_zero_usize_get};
ghost use Rattle.std.specs.Str.{bytes_eq};
ghost use Rattle.lru.specs.LruCache.{lru_cache, put_entries};
ghost use Rattle.pd_text.specs.Text.{common_prefix};
ghost use Rattle.pd_book.specs.TrackCache.{track_of, marked_used, cached_first, without_track, source_of, shares_more_lines_than_cached};

use crate::book::Book;
use lru::LruCache;
use pd_text::{Name, Text};
use pd_track::{Done, Track};
use std::alloc::{AllocError, Global};
use std::marker::Model;
use std::num::NonZeroUsize;

/// Tracks under the names of their scripts, the last used first, and only so many of them.
#[derive(Drop)]
pub struct TrackCache {
    /// None as long as no track was kept.
    cache: Option<LruCache<Name, Track>>,
    /// How many tracks are kept at most.
    max_tracks: NonZeroUsize,
    /// The track that was taken out last, until another is or it is handed out.
    evicted: Option<Track>,
}

impl Model for TrackCache {
    ghost use Rattle.std.specs.Prelude.{[], ◌≡◌, IfSome};
    ghost use Rattle.std.specs.Option.{option_map_or};
    ghost use Rattle.std.specs.NonZero.{non_zero_usize_get};
    ghost use Rattle.pd_book.specs.TrackCache.{TrackCacheView};

    ghost Value = { TrackCacheView };

    ghost view = { λ t. record { entries = option_map_or (λ c. c.entries) t.cache []; max_tracks = non_zero_usize_get t.max_tracks } };

    ghost invariant = { λ t. IfSome t.cache (λ c. c.cap ≡ non_zero_usize_get t.max_tracks) };
}

impl TrackCache {
    /// No tracks; at most so many, and at least one, will be kept.
    pub fn new(max_tracks: usize) -> TrackCache
        requires { 1 ≤ max_tracks }
        ensures { result ≡ record { entries = []; max_tracks = max_tracks } }
    {
        TrackCache {
            cache: None,
            max_tracks: NonZeroUsize::new(max_tracks).unwrap_or(NonZeroUsize::MIN),
            evicted: None,
        }
    }

    /// The track under a name; its place in the order stays.
    pub fn peek_track(&self, name: &Name) -> Option<&Track>
        ensures { option_copied result ≡ track_of name.now self.now }
    {
        match &self.cache {
            Some(cache) => cache.peek(name),
            None => None,
        }
    }

    /// Moves the track under a name to the front.
    pub fn mark_used(&mut self, name: &Name)
        ensures { self.new ≡ marked_used name.now self.old }
    {
        if let Some(cache) = &mut self.cache {
            let _ = cache.promote(name);
        }
    }

    /// Takes out the track under a name.
    pub fn remove(&mut self, name: &Name)
        ensures { self.new ≡ without_track name.now self.old }
    {
        if let Some(cache) = &mut self.cache {
            if let Some(track) = cache.pop(name) {
                self.evicted = Some(track);
            }
        }
    }

    /// Whether the result's track shares more first lines with a text than the track under its name.
    pub fn shares_more_lines_than_cached(&self, done: &Done, text: &Text) -> bool
        ensures { result ≡ shares_more_lines_than_cached text.now (source_of done.now) (track_of done.now.name self.now) }
    {
        match self.peek_track(done.name()) {
            Some(kept) => common_leading_line_count(kept, text)
                < common_leading_line_count(done.track(), text),
            None => true,
        }
    }

    /// Keeps the track of a result at the front, if it is to be kept and where there is memory for it.
    pub fn cache_track_at_front_if_wanted(&mut self, alloc: Global, done: &Done, should_cache: bool)
        ensures { (self.new ≡ (if should_cache then cached_first done.now.name (source_of done.now) self.old else self.old)) ⊎ (self.new ≡ self.old) }
    {
        if should_cache {
            let _ = self.push_track_and_keep_evicted(alloc, done);
        }
    }

    /// Hands out the track that was taken out last, if it is still there.
    pub fn take_evicted_track_if_any(&mut self) -> Option<Track>
        ensures { self.new ≡ self.old }
    {
        self.evicted.take()
    }

    fn push_track_and_keep_evicted(&mut self, alloc: Global, done: &Done) -> Result<(), AllocError>
        ensures put_at_front { OnOk result (self.new ≡ cached_first done.now.name (source_of done.now) self.old) }
        ensures same { OnErr result (self.new ≡ self.old) }
    {
        let name = done.name().share()?;
        let track = done.track().share()?;
        // It is made with the first track, so that a book is made without memory.
        if self.cache.is_none() {
            self.cache = Some(LruCache::new(alloc, self.max_tracks)?);
        }
        if let Some(cache) = &mut self.cache {
            self.evicted = push_and_return_evicted(cache, name, track)?;
        }
        Ok(())
    }
}

impl Book {
    /// Hands out the track that a finish or a remove took out last, if it is still there. Freeing one takes far longer than
    /// either: who shares the book takes it along, and drops it where no other waits.
    pub fn take_evicted_track_if_any(&mut self) -> Option<Track>
        ensures { self.new ≡ self.old }
    {
        self.tracks.take_evicted_track_if_any()
    }
}

/// Keeps a track at the front, and gives the one that falls out.
fn push_and_return_evicted(
    cache: &mut LruCache<Name, Track>,
    name: Name,
    track: Track,
) -> Result<Option<Track>, AllocError>
    ensures put_at_front { OnOk result (cache.new ≡ lru_cache (put_entries bytes_eq cache.old name track) cache.old.cap) }
    ensures same { OnErr result (cache.new ≡ cache.old) }
{
    match cache.push(name, track) {
        Ok(Some((_name, evicted))) => Ok(Some(evicted)),
        Ok(None) => Ok(None),
        Err(_) => Err(AllocError),
    }
}

/// With how many lines the track's text begins as this one does.
fn common_leading_line_count(track: &Track, text: &Text) -> usize
    ensures { result ≡ common_prefix track.now.text text.now }
{
    track.text().lines().same_front(text.lines())
}
