// The image that a script is played on, and the one that was remembered; what changes them and is no call.
#![tactic(auto)]

ghost use Rattle.std.specs.Prelude.{◌≡◌, is_ok, is_some, unwrap_or};
ghost use Rattle.script_state.specs.State.{begun, changed};

mod image;

pub use image::{Image, OutOfRange};
use script::ImageChange;

// The image as it is, and as it was remembered.
#[derive(Clone, Drop)]
pub struct Session {
    pub now: Image,
    pub kept: Image,
}

impl Session {
    // At the start: an empty image, 0 and 0.
    pub fn new() -> Session
        ensures { result ≡ begun }
    {
        Session {
            now: Image::new(),
            kept: Image::new(),
        }
    }

    // Kept (2): shares only its name with `change` of table_entries, which makes a call on an image; this plays a line of a script that is no call.
    // A change; the session is as it was where a number is out of its range.
    #[tactic(auto, unfolding(crate::specs::State::changed))]
    pub fn change(&mut self, c: ImageChange) -> Result<(), OutOfRange>
        ensures state { self.new ≡ unwrap_or (changed c self.old) self.old }
        ensures taken { is_ok result ≡ is_some (changed c self.old) }
    {
        match c {
            ImageChange::New { size, units } => self.now.fill(size, units),
            ImageChange::Size(n) if n <= 65600 => self.now.resize(n as usize),
            ImageChange::Size(_) => return Err(OutOfRange),
            ImageChange::Put { offset, byte } => self.now.put(offset, byte)?,
            ImageChange::Keep => self.kept.copy_from(&self.now),
            ImageChange::Back => self.now.copy_from(&self.kept),
        }
        Ok(())
    }
}
