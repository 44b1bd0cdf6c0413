//! A bell, which wakes the passes that sleep at it.
use std::sync::Wait;
use std::sync::atomic::AtomicU64;
use std::sync::atomic::Ordering::SeqCst;

/// How often it was rung where passes slept, and how many sleep.
#[derive(Drop)]
pub(crate) struct Bell {
    rings: AtomicU64,
    sleepers: AtomicU64,
}

impl Bell {
    /// A bell that was never rung, where nobody sleeps.
    pub(crate) fn new() -> Bell {
        Bell {
            rings: AtomicU64::new(0),
            sleepers: AtomicU64::new(0),
        }
    }

    /// Counts a sleeper, which then looks once more whether it has to wait, and sleeps until the
    /// bell is rung after this. It returns the low 32 bits of the rings so far.
    pub(crate) fn listen(&self) -> u32 {
        self.sleepers.fetch_add(1, SeqCst);
        (self.rings.load(SeqCst) % (1 << 32)) as u32
    }

    /// Sleeps until the bell is rung, where it wasn't since `listen`. It may also return for no
    /// reason.
    pub(crate) fn sleep<R: Wait>(&self, rt: &R, heard: u32) {
        self.rings.park(rt, heard);
    }

    /// The sleeper that `listen` counted is awake.
    pub(crate) fn leave(&self) {
        self.sleepers.fetch_sub(1, SeqCst);
    }

    /// Wakes all that sleep here. Where nobody does, it is one load.
    pub(crate) fn ring(&self) {
        if self.sleepers.load(SeqCst) != 0 {
            self.rings.fetch_add(1, SeqCst);
            self.rings.wake_all();
        }
    }
}
