// The rows as bytes. The step from place p at class c stands at c * places + p: the place that it leads to,
// or 255 for none. Only the rows of the first `used` classes mean anything, and nothing behind byte
// 256 * places is written.
ghost use Rattle.std.specs.Prelude.{◌≡◌, ℕ, ◌+◌, ◌*◌, ◌<◌, ◌≤◌, ◌&&◌, ◌||◌, length, if◌then◌else◌, nat_lt, slice_index};
ghost use Rattle.sets.specs.Members.{none, plus};
ghost use Rattle.sets.specs.Places.{member};
ghost use Rattle.memory.specs.Steps.{size, notable, after, without};
ghost use Rattle.dense_shelf.specs.Rows.{rows, target, wider};
ghost use Rattle.dense_shelf.specs.Sweep.{Swept, Clean};

use crate::watermark::Watermark;
use sets::PlaceSet;

// Rows of so many places over the bytes, of which those of the first classes are in use.
#[derive(Drop)]
pub(crate) struct Rows<'a> {
    pub(crate) bytes: &'a mut [u8],
    pub(crate) places: u8,
    pub(crate) used: Watermark,
    ghost serves: { places ≡ rows (length bytes.now) },
    ghost few: { places ≤ 64 },
    ghost fit: { places * 256 ≤ length bytes.now },
}

// The step that a byte says, of n places.
fn step_of(b: u8, n: u8) -> Option<u8>
    ensures { result ≡ target n b }
{
    if b < n { Some(b) } else { None }
}

// Does the byte say a step from place p that leads from or to one of the places?
fn doomed(b: u8, n: u8, p: u8, places: PlaceSet) -> bool
    ensures { result ≡ (nat_lt b n && (member places p || member places b)) }
{
    b < n && (places.has(p) || places.has(b))
}

impl<'a> Rows<'a> {
    ghost use Rattle.dense_shelf.specs.Kept.{map_in, Untouched};

    // No row in use, whatever the bytes are.
    pub(crate) fn new(bytes: &'a mut [u8]) -> Rows<'a>
        ensures bytes { result.bytes.now ≡ bytes.old }
        ensures lender { result.bytes.ghost_name ≡ bytes.entry.ghost_name }
        ensures places { result.places ≡ rows (length bytes.old) }
        ensures used { result.used.classes ≡ 0 }
    {
        let places = (bytes.len() / 256).min(64) as u8;
        Rows {
            bytes,
            places,
            used: Watermark { classes: 0 },
        }
    }

    // Where the step from the place at the class stands.
    fn cell(&self, place: u8, class: u16) -> usize
        requires { (place < self.now.places) × (class < 256) }
        ensures is { result ≡ class * self.now.places + place }
        ensures within { result < length self.now.bytes.now }
    {
        class as usize * self.places as usize + place as usize
    }

    pub(crate) fn know(&self, place: u8, class: u16) -> Option<u8>
        ensures { result ≡ map_in self.now place class }
    {
        if place < self.places && class < self.used.classes {
            step_of(self.bytes[self.cell(place, class)], self.places)
        } else {
            None
        }
    }

    // Brings the rows up to that of the class into use, without a step.
    fn widen(&mut self, class: u16)
        requires { class < 256 }
        ensures untouched { Untouched self.old self.new }
        ensures used { self.new.used.classes ≡ wider self.old.used.classes class }
        ensures map { map_in self.new ≡ map_in self.old }
    {
        if class >= self.used.classes {
            let n = self.places as usize;
            let start = self.used.classes as usize * n;
            let end = (class as usize + 1) * n;
            self.bytes[start..end].fill(255);
            self.used = Watermark { classes: class + 1 };
        }
    }

    pub(crate) fn note(&mut self, place: u8, class: u16, target: u8) -> bool
        ensures untouched { Untouched self.old self.new }
        ensures answer { result ≡ notable self.old.places (256 * self.old.places) (map_in self.old) place class target }
        ensures map { map_in self.new ≡ after result (map_in self.old) place class target }
    {
        if place >= self.places || target >= self.places || class >= 256 {
            return false;
        }
        if self.know(place, class).is_some() {
            return false;
        }
        self.widen(class);
        let at = self.cell(place, class);
        self.bytes[at] = target;
        true
    }

    // Forgets the step from the place at the class, and answers whether there was one.
    fn forget_from(&mut self, class: u16, place: u8) -> bool
        requires { (class < self.old.used.classes) × (place < self.old.places) }
        ensures untouched { Untouched self.old self.new }
        ensures used { self.new.used.classes ≡ self.old.used.classes }
        ensures swept { Swept self.old.places (plus 64 none place) (map_in self.old) (map_in self.new) (if result then 1 else 0) }
        ensures gone { self.old.places ≤ slice_index self.new.bytes.now (class * self.old.places + place) }
    {
        let at = self.cell(place, class);
        if self.bytes[at] < self.places {
            self.bytes[at] = 255;
            true
        } else {
            false
        }
    }

    // Forgets the steps to the place at the class. Every byte of the row is written and a byte counts, so that
    // the loop is one over vectors.
    fn forget_to(&mut self, class: u16, place: u8) -> usize
        requires in_use { (class < self.old.used.classes) × (place < self.old.places) }
        requires gone { self.old.places ≤ slice_index self.old.bytes.now (class * self.old.places + place) }
        ensures untouched { Untouched self.old self.new }
        ensures used { self.new.used.classes ≡ self.old.used.classes }
        ensures swept { Swept self.old.places (plus 64 none place) (map_in self.old) (map_in self.new) result }
        ensures row { (q : ℕ) → Clean (plus 64 none place) (map_in self.new) q class }
    {
        let n = self.places as usize;
        let start = class as usize * n;
        let row = &mut self.bytes[start..start + n];
        let mut gone: u8 = 0;
        for byte in row.iter_mut() {
            let b = *byte;
            let stays = if b == place {
                gone += 1;
                255
            } else {
                b
            };
            *byte = stays;
        }
        gone as usize
    }

    // Forgets the steps from or to one place.
    fn forget_one(&mut self, place: u8) -> usize
        requires { place < self.old.places }
        ensures untouched { Untouched self.old self.new }
        ensures map { map_in self.new ≡ without (map_in self.old) (plus 64 none place) }
        ensures answer { result + size self.old.places (map_in self.new) ≡ size self.old.places (map_in self.old) }
    {
        let mut gone = 0;
        for class in 0..self.used.classes {
            gone += usize::from(self.forget_from(class, place)) + self.forget_to(class, place);
        }
        gone
    }

    // Forgets in the row of the class the steps from or to the places.
    fn forget_row(&mut self, class: u16, places: PlaceSet) -> usize
        requires { class < self.old.used.classes }
        ensures untouched { Untouched self.old self.new }
        ensures used { self.new.used.classes ≡ self.old.used.classes }
        ensures swept { Swept self.old.places (member places) (map_in self.old) (map_in self.new) result }
        ensures row { (p : ℕ) → Clean (member places) (map_in self.new) p class }
    {
        let n = self.places;
        let start = class as usize * n as usize;
        let row = &mut self.bytes[start..start + n as usize];
        let mut gone = 0;
        for (p, byte) in row.iter_mut().enumerate() {
            if doomed(*byte, n, p as u8, places) {
                *byte = 255;
                gone += 1;
            }
        }
        gone
    }

    // Forgets the steps from or to the places row by row.
    fn forget_rows(&mut self, places: PlaceSet) -> usize
        ensures untouched { Untouched self.old self.new }
        ensures map { map_in self.new ≡ without (map_in self.old) (member places) }
        ensures answer { result + size self.old.places (map_in self.new) ≡ size self.old.places (map_in self.old) }
    {
        let mut gone = 0;
        for class in 0..self.used.classes {
            gone += self.forget_row(class, places);
        }
        gone
    }

    // Forgets the steps from or to the places, and answers how many they were.
    pub(crate) fn forget(&mut self, places: PlaceSet) -> usize
        ensures untouched { Untouched self.old self.new }
        ensures map { map_in self.new ≡ without (map_in self.old) (member places) }
        ensures answer { result + size self.old.places (map_in self.new) ≡ size self.old.places (map_in self.old) }
    {
        match places.sole() {
            Some(p) if p < self.places => self.forget_one(p),
            _ => self.forget_rows(places),
        }
    }
}
