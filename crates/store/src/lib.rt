// What a write stores (paper 01, "What the meter does with a frame", step 5).
#![tactic(auto)]

ghost use Rattle.std.specs.Prelude.{◌≡◌, true, cond, eqb};
ghost use Rattle.refusal.specs.declared.ErrorCode.TheVariants.{Data};
ghost use Rattle.modbus.specs.Frame.{word_number, write_values, write_shaped};
ghost use Rattle.store.specs.Writes.{written_of};

use meter::Meter;
use meter::groups::Setup;
use refusal::ErrorCode;

// Where the standard group of setup words starts.
const STANDARD: u16 = 0x2000;

// Where the output group starts.
const OUTPUT: u16 = 0x2200;

// Judges a write, and answers the meter with its group of setup words stored. A wrong write gives no meter: the caller's stays.
pub fn write(m: Meter, frame: &[u8]) -> Result<Meter, ErrorCode>
    ensures { result ≡ written_of m frame.now }
{
    if !modbus::write_shaped(frame) {
        return Err(ErrorCode::Data);
    }
    let changed = match words::word_at(frame, modbus::START_AT) {
        STANDARD => {
            let standard = group(frame)?;
            if !setup::standard_ok(standard) {
                return Err(ErrorCode::Data);
            }
            Setup {
                standard,
                ..m.setup
            }
        }
        OUTPUT => {
            let output = group(frame)?;
            if !setup::output_ok(output) {
                return Err(ErrorCode::Data);
            }
            Setup { output, ..m.setup }
        }
        _ => return Err(ErrorCode::Address),
    };
    Ok(m.set_up(changed))
}

// The words of a write to a group of N words. Their range is tested by the caller, since the check has no proof of a function
// parameter that takes an array of N.
fn group<const N: usize>(frame: &[u8]) -> Result<[u16; N], ErrorCode>
    requires { write_shaped frame.now ≡ true }
    ensures { result ≡ cond (eqb (word_number frame.now) N) (Ok (write_values frame.now)) (Err Data) }
{
    if usize::from(words::word_at(frame, modbus::WORDS_AT)) != N {
        return Err(ErrorCode::Data);
    }
    let mut group = [0u16; N];
    modbus::values(frame, &mut group);
    Ok(group)
}
