// Intel HEX for C: an image as a text, and a text as an image, on geometry numbers and byte buffers.
// Kept (1, 5) in this file: C's two calls have these parameters, and `us_hex_report` these two fields (include/undernshade_hex.h).
#![tactic(auto)]

ghost use Rattle.std.specs.Prelude.{◌≡◌};
ghost use Rattle.hex_lines.specs.Faults.{number_of, length_of};
ghost use Rattle.hex_lines.specs.Reads.{reads};
ghost use Rattle.hex_lines.specs.Writes.{writes};
ghost use Rattle.c_hex.specs.Reports.{geometry, ReadReport, WriteReport};

use hex_lines::HexFault;
use rules::Geometry;

// A number, and the length of the text that was written.
#[repr(C)]
#[derive(Clone, Copy)]
pub struct HexReport {
    pub number: u32,
    pub len: usize,
}

impl From<Result<usize, HexFault>> for HexReport {
    ghost from_gives = { λ r h. h ≡ record { number = number_of r; len = length_of r } };

    fn from(outcome: Result<usize, HexFault>) -> HexReport {
        match outcome {
            Ok(len) => HexReport { number: 0, len },
            Err(fault) => HexReport {
                number: fault.into(),
                len: 0,
            },
        }
    }
}

// Kept (2): C's two numbers are cast here and in c_store; a method of Geometry would bring C's numbers into rules, the one crate below both.
fn geometry_of(size: u32, units: u32) -> Geometry
    ensures { result ≡ geometry size units }
{
    Geometry {
        size: size as usize,
        units: units as usize,
    }
}

#[unsafe(no_mangle)]
pub extern "C" fn us_hex_write(image: &[u8], size: u32, units: u32, text: &mut [u8]) -> HexReport
    ensures { WriteReport (writes (geometry size units) image.now text.old) result text.new }
{
    HexReport::from(hex_write::write(image, geometry_of(size, units), text))
}

#[unsafe(no_mangle)]
pub extern "C" fn us_hex_read(image: &mut [u8], size: u32, units: u32, text: &[u8]) -> HexReport
    ensures { ReadReport (reads (geometry size units) text.now image.old) result image.new }
{
    let outcome = hex_read::read(text, geometry_of(size, units), image);
    HexReport::from(outcome.map(|()| 0))
}
