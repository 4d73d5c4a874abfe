// The second board: the ring.
#![tactic(auto)]

ghost use Rattle.ring.specs.RingKind.{ring};
ghost use Rattle.ring.specs.RingLaws.{ring_laws};

use board::Records;
use reply::Reply;
use ring_desk::{collect_ring, retire_ring, ring_record_words, sound_ring};

// The ring: a desk's list goes around, from the slot that the last word of its record names.
#[derive(Clone, Copy)]
pub struct Ring;

impl Records for Ring {
    ghost kind = { ring };

    fn record_words(s: usize) -> usize {
        ring_record_words(s)
    }

    fn sound_record(r: &[u8], s: usize) -> bool {
        sound_ring(r, s)
    }

    fn retire(r: &mut [u8], s: usize) -> Reply {
        retire_ring(r, s)
    }

    fn collect(r: &mut [u8], s: usize, n: usize, x: u16, y: u16) -> u16 {
        collect_ring(r, s, n, x, y)
    }

    ghost laws = { ring_laws };
}
