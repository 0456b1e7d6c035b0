//! What a waiting line does.

ghost use Rattle.std.specs.Prelude.{◌≡◌, ◌<◌, List, [], length};
ghost use Rattle.line.specs.Waiting.{held, start, Begun, Empty, Over, place_at, Put, Take};

use crate::fault::LineFault;
use crate::ring::Line;

impl Line {
    /// States that an empty line holds nothing, whatever the elements and the slice.
    pub fn empty_holds_nothing<T: Copy>()
        ensures { (line : Line) (slots : List T) → Empty line → held line slots ≡ [] }
    {}

    /// An empty line.
    pub fn new() -> Line
        ensures none { Empty result }
        ensures begun { Begun 0 result }
    {
        Line::empty(0)
    }

    /// Forgets every element.
    pub fn clear(&mut self)
        ensures none { Empty self.new }
        ensures begun { Begun 0 self.new }
    {
        *self = Line::new();
    }

    /// How many elements are held over this slice.
    pub fn len<T: Copy>(&self, slots: &[T]) -> usize
        ensures { result ≡ length (held self.now slots.now) }
    {
        self.over(slots).count
    }

    /// Puts `x` behind all others, or refuses it where every place is taken.
    ///
    /// Over a slice of another length a new line begins.
    pub fn put<T: Copy>(&mut self, slots: &mut [T], x: T) -> Result<(), LineFault>
        ensures done { Put self.old slots.old x self.new slots.new result }
        ensures stays { start self.new slots.new ≡ start self.old slots.old }
    {
        let mut line = self.over(slots);
        if line.count == slots.len() {
            return Err(LineFault::Full {
                capacity: slots.len(),
            });
        }
        slots[line.place(line.count)] = x;
        line.count += 1;
        *self = line;
        Ok(())
    }

    /// Takes the oldest element out.
    pub fn take<T: Copy>(&mut self, slots: &[T]) -> Option<T>
        ensures { Take self.old slots.now self.new result }
    {
        let mut line = self.over(slots);
        if line.count == 0 {
            return None;
        }
        let oldest = slots[line.place(0)];
        line.head = line.place(1);
        line.count -= 1;
        *self = line;
        Some(oldest)
    }

    // An empty line over `capacity` places.
    fn empty(capacity: usize) -> Line
        ensures { Begun capacity result }
    {
        Line {
            capacity,
            head: 0,
            count: 0,
        }
    }

    // The line as it stands over `slots`: a new one, unless the slice has its capacity. A copy,
    // since a refused put and a take from an empty line leave the line as it was.
    fn over<T: Copy>(&self, slots: &[T]) -> Line
        ensures same { Over self.now slots.now result }
        ensures from { start result slots.now ≡ start self.now slots.now }
    {
        if slots.len() == self.capacity {
            *self
        } else {
            Line::empty(slots.len())
        }
    }

    // The place that is `k` behind the head. `head + k` could pass the largest
    // `usize`, so `k` is compared with the places up to the slice's end.
    fn place(&self, k: usize) -> usize
        ensures { result ≡ place_at self.now k }
    {
        let ahead = self.capacity - self.head;
        if k < ahead { self.head + k } else { k - ahead }
    }
}

impl Default for Line {
    ghost is_default = { Begun 0 };

    fn default() -> Line {
        Line::new()
    }
}
