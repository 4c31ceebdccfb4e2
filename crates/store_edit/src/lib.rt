// Lines put into a sound store, and taken out of one.
#![tactic(auto)]

ghost use Rattle.std.specs.Prelude.{◌≡◌, T, take};
ghost use Rattle.paper.specs.Line.{line_number};
ghost use Rattle.paper.specs.Store.{lines_in, put_line};
ghost use Rattle.store.specs.Answers.{place_of, sound_counts};
ghost use Rattle.store_edit.specs.Answers.{stored_answer, stored_bytes, removed_answer, removed_bytes};

use store::{Counts, Place, room_of};

// Puts a line in at the place of its number, and there in the place of a stored line, and answers the counts afterwards. Nothing is written if the
// store would pass its room.
#[tactic(auto, using(crate::proofs::Edits::insides))]
pub fn put_in(store: &mut [u8], counts: Counts, place: Place, line: &[u8]) -> Option<Counts>
    requires { (T (sound_counts store.old counts)) × (place ≡ place_of (line_number line.now) (lines_in (take counts.used store.old))) }
    ensures { (result ≡ stored_answer store.old (put_line line.now (lines_in (take counts.used store.old))))
        × (store.new ≡ stored_bytes store.old (put_line line.now (lines_in (take counts.used store.old)))) }
{
    let at = place.at;
    let old = place.size;
    let new = line.len();
    let after = counts.used - old + new;
    if room_of(store) < after {
        return None;
    }
    store_gap::resize(store, at, old, new, counts.used);
    buffers::copy(store, at, line);
    let greatest = counts.greatest.max(place.number);
    let lines = if old == 0 {
        counts.lines + 1
    } else {
        counts.lines
    };
    Some(Counts {
        used: after,
        lines,
        greatest,
    })
}

// Takes the line at a place out, and answers the counts afterwards; or none, where there is no line with the number.
#[tactic(auto, using(crate::proofs::Edits::insides))]
pub fn take_out(store: &mut [u8], counts: Counts, place: Place) -> Option<Counts>
    requires { (T (sound_counts store.old counts)) × (place ≡ place_of place.number (lines_in (take counts.used store.old))) }
    ensures { (result ≡ removed_answer place.number (lines_in (take counts.used store.old)))
        × (store.new ≡ removed_bytes place.number store.old (lines_in (take counts.used store.old))) }
{
    let at = place.at;
    let old = place.size;
    if old == 0 {
        return None;
    }
    store_gap::resize(store, at, old, 0, counts.used);
    let used = counts.used - old;
    let lines = counts.lines - 1;
    let greatest = if place.number == counts.greatest {
        place.before
    } else {
        counts.greatest
    };
    Some(Counts {
        used,
        lines,
        greatest,
    })
}
