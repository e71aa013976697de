//! How soon a post that nobody answers goes out again.

ghost use Rattle.std.specs.Prelude.{ℕ, List, ◌≡◌, ◌⊎◌, Option, Some, None, false, true, if◌then◌else◌, ◌-◌, nat_eq, nat_le};
ghost use Rattle.indexmap.specs.IndexMap.{get};
ghost use Rattle.resend_delays.specs.Delays.{IsNoted, again, goes, is_over, kept, known, mark_of};

use indexmap::IndexMap;
use sha1::Sha1;
use std::alloc::{AllocError, Global};
use std::mem;

/// The milliseconds behind a first post, until the same goes out again.
const FIRST_WAIT: u64 = 5_000;

/// The most milliseconds between two posts.
const LONGEST_WAIT: u64 = 60_000;

/// What isn't asked about for so many milliseconds may be forgotten.
const FORGOTTEN_AFTER: u64 = 120_000;

/// The most posts that are known. More go out each time.
const MOST_POSTS: usize = 65_536;

/// When a post last went out, and how long it waits until it may again, in milliseconds.
#[derive(Clone, Copy, Debug, PartialEq, Eq)]
pub struct Delay {
    pub sent: u64,
    pub wait: u64,
}

/// Posts, known by their marks. Behind its first the same goes out again after 5 seconds, and then after twice as long each time, a
/// minute at most.
#[derive(Drop)]
pub struct Delays {
    alloc: Global,
    recent: IndexMap<[u8; 20], Delay>,
    earlier: IndexMap<[u8; 20], Delay>,
    turned: u64,
}

/// Whether a delay is over.
fn is_over(now: u64, delay: Delay) -> bool
    ensures { result ≡ is_over now delay }
{
    delay.wait <= now && delay.sent <= now - delay.wait
}

/// The delay behind one that is over.
fn again(now: u64, delay: Delay) -> Delay
    ensures { result ≡ again now delay }
{
    let wait = if delay.wait >= LONGEST_WAIT / 2 {
        LONGEST_WAIT
    } else {
        delay.wait * 2
    };
    Delay { sent: now, wait }
}

/// By what a post is known: the SHA-1 of its host, its port and its bytes.
pub fn mark_of(host: &str, port: u16, bytes: &[u8]) -> [u8; 20]
    ensures { result ≡ mark_of host.now port bytes.now }
{
    let mut sum = Sha1::new();
    sum.update(host.as_bytes());
    sum.update(&[(port >> 8) as u8, (port & 255) as u8]);
    sum.update(bytes);
    sum.finalize()
}

impl Delays {
    pub fn new(alloc: Global) -> Delays
        ensures { (mark : List ℕ) → known result mark ≡ None }
    {
        Delays {
            alloc,
            recent: IndexMap::new(alloc),
            earlier: IndexMap::new(alloc),
            turned: 0,
        }
    }

    /// The memory of what is known.
    pub fn alloc(&self) -> Global {
        self.alloc
    }

    /// What is known of a post.
    pub fn find(&self, mark: [u8; 20]) -> Option<Delay>
        ensures { result ≡ known self.now mark }
    {
        match self.recent.get(&mark) {
            Some(delay) => Some(*delay),
            None => match self.earlier.get(&mark) {
                Some(delay) => Some(*delay),
                None => None,
            },
        }
    }

    /// Forgets what nobody asked about for long.
    fn turn(&mut self, now: u64)
        ensures { (mark : List ℕ) → known self.new mark ≡ kept now self.old mark }
    {
        if now.saturating_sub(self.turned) >= FORGOTTEN_AFTER {
            let recent = mem::replace(&mut self.recent, IndexMap::new(self.alloc));
            self.earlier = recent;
            self.turned = now;
        }
    }

    /// Keeps what is known of a post, where there is room.
    fn keep(&mut self, mark: [u8; 20], delay: Delay)
        ensures { (known self.new mark ≡ Some delay) ⊎ (known self.new mark ≡ known self.old mark) }
    {
        if self.recent.get(&mark).is_some() || self.recent.len() < MOST_POSTS {
            let _ = self.recent.insert(mark, delay);
        }
    }

    /// Whether a post goes out now, by the clock in milliseconds.
    pub fn pass(&mut self, now: u64, mark: [u8; 20]) -> bool
        ensures goes { result ≡ goes now (kept now self.old mark) }
        ensures held { result ≡ false → known self.new mark ≡ kept now self.old mark }
        ensures noted { result ≡ true → IsNoted now (kept now self.old mark) (known self.new mark) }
    {
        self.turn(now);
        match self.find(mark) {
            None => {
                self.keep(
                    mark,
                    Delay {
                        sent: now,
                        wait: FIRST_WAIT,
                    },
                );
                true
            }
            Some(delay) if is_over(now, delay) => {
                self.keep(mark, again(now, delay));
                true
            }
            Some(delay) => {
                self.keep(mark, delay);
                false
            }
        }
    }
}
