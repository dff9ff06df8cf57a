// The archive libsds.a: the entry points of crate sds under their C names, each with sds's own clauses and no code of its own.
#![tactic(auto)]

ghost use Rattle.std.specs.Prelude.{◌≡◌};
ghost use Rattle.laws.specs.Checks.{first_of};
ghost use Rattle.sds.specs.Border.{border_read_number, border_read, border_write_number, border_write, border_size, table_checks, stepped, border_step};
ghost use Rattle.guest.specs.Errors.{code_of};
ghost use Rattle.guest.specs.Step.{areas, call, step_of};

#[unsafe(no_mangle)]
pub extern "C" fn sds_step(
    frame: &[u8],
    own: u32,
    table: &[u8],
    store: &mut [u8],
    work: &mut [u8],
    out: &mut [u8],
) -> u32
    ensures { stepped result (areas store.new work.new) out.new
        ≡ border_step (step_of (call frame.now own table.now (areas store.old work.old) out.old)) }
{
    sds::sds_step(frame, own, table, store, work, out)
}

#[unsafe(no_mangle)]
pub extern "C" fn sds_read(frame: &[u8], message: &mut [u8]) -> u32
    ensures { (result ≡ border_read_number frame.now message.old) × (message.new ≡ border_read frame.now message.old) }
{
    sds::sds_read(frame, message)
}

#[unsafe(no_mangle)]
pub extern "C" fn sds_write(message: &[u8], frame: &mut [u8]) -> u32
    ensures { (result ≡ border_write_number message.now frame.old) × (frame.new ≡ border_write message.now frame.old) }
{
    sds::sds_write(message, frame)
}

#[unsafe(no_mangle)]
pub extern "C" fn sds_descriptor_size(descriptor: u32) -> u32
    ensures { result ≡ border_size descriptor }
{
    sds::sds_descriptor_size(descriptor)
}

#[unsafe(no_mangle)]
pub extern "C" fn sds_table_check(table: &[u8], store_len: u64) -> u32
    ensures { result ≡ first_of (table_checks table.now store_len) }
{
    sds::sds_table_check(table, store_len)
}

#[unsafe(no_mangle)]
pub extern "C" fn sds_error_code(number: u32) -> u32
    ensures { result ≡ code_of number }
{
    sds::sds_error_code(number)
}
