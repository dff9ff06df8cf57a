// The archive libsds_host.a: the entry points of crate sds_host under their C names, each with sds_host's own clauses and no code of its own.
#![tactic(auto)]

ghost use Rattle.std.specs.Prelude.{◌≡◌};
ghost use Rattle.candump.specs.Exporting.{put_left};
ghost use Rattle.sds_host.specs.Border.{border_import_number, border_import, border_export_answer, BorderCollected};

use collect::Tally;

#[unsafe(no_mangle)]
pub extern "C" fn sds_import_line(line: &[u8], frame: &mut [u8]) -> u32
    ensures { (result ≡ border_import_number line.now frame.old) × (frame.new ≡ border_import line.now frame.old) }
{
    sds_host::sds_import_line(line, frame)
}

#[unsafe(no_mangle)]
pub extern "C" fn sds_export_record(frame: &[u8], line: &mut [u8]) -> u32
    ensures { (result ≡ border_export_answer frame.now line.old) × (line.new ≡ put_left frame.now line.old) }
{
    sds_host::sds_export_record(frame, line)
}

#[unsafe(no_mangle)]
pub extern "C" fn sds_collect(
    frame: &[u8],
    work: &mut [u8],
    value: &mut [u8],
    tally: &mut Tally,
) -> u32
    ensures { BorderCollected frame.now work.old value.old tally.old result work.new value.new tally.new }
{
    sds_host::sds_collect(frame, work, value, tally)
}
