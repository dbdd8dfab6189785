// An image with its geometry numbers.
ghost use Rattle.std.specs.Prelude.{◌≡◌, ◌≤◌, replicate, unwrap_or, is_ok, is_some, length, ⊤};
ghost use Rattle.script_state.specs.Images.{none_held, whole, sized, put_at, with_bytes};

use rules::Geometry;
use std::alloc::AllocError;
use std::marker::Model;

// A number of a change is out of its range.
#[derive(Clone, Copy, PartialEq, Eq)]
pub struct OutOfRange;

// An image of at most 65,600 bytes with its geometry numbers; a contract sees the three.
#[derive(Drop)]
pub struct Image {
    pub size: u32,
    pub units: u32,
    pub bytes: usize,
    pub buffer: [u8; 65600],
}

impl Model for Image {
    ghost use Rattle.std.specs.Prelude.{◌≤◌, take};
    ghost use Rattle.script_state.specs.Images.{HeldImage};

    ghost Value = { HeldImage };

    ghost view = { λ h. record { size = h.size; units = h.units; image = take h.bytes h.buffer } };

    ghost invariant = { λ h. h.bytes ≤ 65600 };
}

// The kit has no `Copy` for a type whose model does not give its fields back.
impl Clone for Image {
    ghost is_clone = { λ x y. y ≡ x };

    ghost is_infallible = { λ _. ⊤ };

    fn clone(&self) -> Result<Image, AllocError> {
        Ok(Image {
            size: self.size,
            units: self.units,
            bytes: self.bytes,
            buffer: self.buffer,
        })
    }
}

// U x S bytes, or none where that is over 65,536.
#[tactic(auto, unfolding(crate::specs::Images::whole))]
fn bytes_of(size: u32, units: u32) -> usize
    ensures value { result ≡ whole size units }
    ensures short { result ≤ 65536 }
{
    let all = u64::from(size) * u64::from(units);
    if all <= 65536 { all as usize } else { 0 }
}

impl Image {
    // An empty image, 0 and 0.
    pub fn new() -> Image
        ensures { result ≡ none_held }
    {
        Image {
            size: 0,
            units: 0,
            bytes: 0,
            buffer: [0; 65600],
        }
    }

    // The geometry that the numbers give.
    pub fn geometry(&self) -> Geometry
        ensures { result ≡ record { size = self.now.size; units = self.now.units } }
    {
        Geometry {
            size: self.size as usize,
            units: self.units as usize,
        }
    }

    // The bytes of the image.
    pub fn image(&self) -> &[u8]
        ensures bytes { result.now ≡ self.now.image }
        ensures short { length result.now ≤ 65600 }
    {
        &self.buffer[..self.bytes]
    }

    // The image is cut, or extended with FF.
    #[tactic(auto, unfolding(crate::specs::Images::sized))]
    pub fn resize(&mut self, n: usize)
        requires { n ≤ 65600 }
        ensures { self.new ≡ with_bytes self.old (sized n self.old.image) }
    {
        if self.bytes < n {
            self.buffer[self.bytes..n].fill(0xff);
        }
        self.bytes = n;
    }

    // Kept (2): shares only its name with the `fill` of others: this makes an image of FF; they lay a text, copy a home, list what a table will hold.
    // An image of FF.
    #[tactic(auto, unfolding(crate::specs::Images::sized))]
    pub fn fill(&mut self, size: u32, units: u32)
        ensures { self.new ≡ record { size = size; units = units; image = replicate (whole size units) 255 } }
    {
        self.size = size;
        self.units = units;
        self.bytes = 0;
        self.resize(bytes_of(size, units));
    }

    // Kept (2): shares only its name with the `put` of step_move and text: this sets one byte and may refuse, they write a descriptor and append a text.
    // One byte of the image is set, where it has that byte.
    #[tactic(auto, using(crate::specs::ImageLaws::put_inside), unfolding(crate::specs::Images::put_at))]
    pub fn put(&mut self, offset: u32, byte: u32) -> Result<(), OutOfRange>
        ensures image { self.new ≡ with_bytes self.old (unwrap_or (put_at offset byte self.old.image) self.old.image) }
        ensures taken { is_ok result ≡ is_some (put_at offset byte self.old.image) }
    {
        let at = offset as usize;
        let byte = u8::try_from(byte).map_err(|_| OutOfRange)?;
        if self.bytes <= at {
            return Err(OutOfRange);
        }
        self.buffer[at] = byte;
        Ok(())
    }

    // The image is that of another.
    pub fn copy_from(&mut self, other: &Image)
        ensures { self.new ≡ other.now }
    {
        let n = other.bytes;
        self.size = other.size;
        self.units = other.units;
        self.bytes = n;
        self.buffer[..n].copy_from_slice(&other.buffer[..n]);
    }
}
