//! The asks that are under way at a counter.
use std::sync::atomic::AtomicU64;
use std::sync::atomic::Ordering::SeqCst;

/// So many asks of one user are examined side by side. Each mark adds an item, and what was found
/// after fewer items isn't used: of more asks most would be examined twice.
const SIDE_BY_SIDE: u64 = 2;

/// How many asks are under way.
#[derive(Drop)]
pub(crate) struct Crowd {
    asks: AtomicU64,
}

impl Crowd {
    /// No ask is under way.
    pub(crate) fn new() -> Crowd {
        Crowd {
            asks: AtomicU64::new(0),
        }
    }

    /// An ask begins.
    pub(crate) fn enter(&self) {
        self.asks.fetch_add(1, SeqCst);
    }

    /// Whether more asks are under way than are examined side by side.
    pub(crate) fn is_large(&self) -> bool {
        self.asks.load(SeqCst) > SIDE_BY_SIDE
    }

    /// An ask has ended.
    pub(crate) fn leave(&self) {
        self.asks.fetch_sub(1, SeqCst);
    }
}
