// Giving a pass: its transaction, part by part, each with what is left of the allowance.
ghost use Rattle.std.specs.Prelude.{◌≡◌, ◌≤◌, ◌<◌, ◌≢◌, length, take};

use crate::{DONE, STOPPED, Sizes};
use c_report::Report;

// The pass that is asked for: how many there are, and its two people.
#[derive(Clone, Copy)]
pub struct Asked {
    pub n: usize,
    pub first: u32,
    pub second: u32,
    ghost fits: { n < 126 },
}

// Kept (1): the number of a c_store report, as C reads it, passed on as it came; an enum would be made of it here and turned back in us_give.
// Where giving ends early: a number that is not DONE, and the steps made.
#[derive(Clone, Copy)]
pub struct Stop {
    pub number: u32,
    pub steps: u32,
    ghost early: { number ≢ 0 },
}

// A transaction on its way: the geometry's numbers, the allowance, and the steps made, which are within it.
#[derive(Clone, Copy)]
pub struct Giving {
    sizes: Sizes,
    allowance: u32,
    made: u32,
    ghost within: { made ≤ allowance },
}

// A content's bytes in an array of their own. Those of a Text stand beside its length, which is read as a word; what C lends to the store may stand
// anywhere, and tools/module-check holds all that is lent to one call to one rule.
fn alone(content: &[u8]) -> [u8; 64]
    requires { length content.now ≤ 64 }
    ensures { take (length content.now) result ≡ content.now }
{
    let mut bytes = [0; 64];
    // Kept (3): `copy_from_slice` was tried and proved; tools/module-check then takes a text and the rows of an image for one kind of memory.
    for i in 0..content.len() {
        bytes[i] = content[i];
    }
    bytes
}

impl Giving {
    ghost use Rattle.std.specs.Prelude.{◌≡◌, ◌+◌, ◌-◌, length};
    ghost use Rattle.rules.specs.Calls as calls;
    ghost use Rattle.rules.specs.declared.Rule.TheVariants.{Tightest};
    ghost use Rattle.c_passes.specs.Parts.{After, GivingEnds, Part};

    // What is left of the allowance.
    fn left(self) -> u32
        ensures { result ≡ self.allowance - self.made }
    {
        self.allowance - self.made
    }

    // Kept (2): shares only the name with after of table_renew, which lays a table after a format or a mount; this one ends a part of giving.
    // After a part: where the store refuses midway, the abort; after STOPPED nothing more.
    fn after(self, image: &mut [u8], part: Report) -> Result<Giving, Stop>
        requires { self.made + part.steps ≤ self.allowance }
        ensures { After self part image.old result image.new }
    {
        let giving = Giving {
            sizes: self.sizes,
            allowance: self.allowance,
            made: self.made + part.steps,
        };
        match part.number {
            DONE => Ok(giving),
            STOPPED => Err(Stop {
                number: STOPPED,
                steps: giving.made,
            }),
            number => {
                let abort = c_store::us_abort(
                    image,
                    self.sizes.size,
                    self.sizes.units,
                    giving.left(),
                );
                Err(Stop {
                    number: if abort.number == STOPPED {
                        STOPPED
                    } else {
                        number
                    },
                    steps: giving.made + abort.steps,
                })
            }
        }
    }

    // Kept (2, 5): call_write's writes a file, hex_write's a text; this one calls us_write, whose arguments are C's, with what is left of the allowance.
    // A file of at most 64 bytes is written.
    fn write(self, image: &mut [u8], file: u32, content: &[u8]) -> Result<Giving, Stop>
        requires { length content.now ≤ 64 }
        ensures { Part self (calls.write Tightest file content.now) image.old result image.new }
    {
        let bytes = alone(content);
        let part = c_store::us_write(
            image,
            self.sizes.size,
            self.sizes.units,
            file,
            &bytes[..content.len()],
            self.left(),
        );
        self.after(image, part)
    }

    // Kept (2): step_end, call_end and table_renew each commit one level lower; this one calls us_commit with what is left of the allowance.
    // The commit.
    fn commit(self, image: &mut [u8]) -> Result<Giving, Stop>
        ensures { Part self calls.commit image.old result image.new }
    {
        let part = c_store::us_commit(image, self.sizes.size, self.sizes.units, self.left());
        self.after(image, part)
    }

    // The transaction, of the pass and the raised register count: how many steps it makes.
    pub fn give(image: &mut [u8], sizes: Sizes, allowance: u32, asked: Asked) -> Result<u32, Stop>
        ensures { GivingEnds sizes allowance asked image.old result image.new }
    {
        let begin = c_store::us_begin(image, sizes.size, sizes.units, allowance);
        if begin.number != DONE {
            return Err(Stop {
                number: begin.number,
                steps: begin.steps,
            });
        }
        let begun = Giving {
            sizes,
            allowance,
            made: begin.steps,
        };
        let pass = pass_text::pass_of(asked.n, asked.first as usize, asked.second as usize);
        let passed = begun.write(image, 2 + asked.n as u32, pass.as_slice())?;
        let register = pass_text::register_of(asked.n + 1);
        let registered = passed.write(image, 1, register.as_slice())?;
        let committed = registered.commit(image)?;
        Ok(committed.made)
    }
}
