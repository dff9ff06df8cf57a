// Checks 1 and 3 to 6, which put no frame: of the lengths and of the header. (Check 2, which puts none either, is the table's own.)
ghost use Rattle.std.specs.Prelude.{◌≡◌};
ghost use Rattle.laws.specs.Checks.{first_of};
ghost use Rattle.guest.specs.Checks.{setting_by, misfit};
ghost use Rattle.guest.specs.Step.{number_in};
ghost use Rattle.judge.specs.Code.{route_checks};

use guest::Refusal;

// Check 1. Own address is 32 bits wide, so that 265 is refused and not taken for 9.
pub fn misfit(
    own: u32,
    table: &[u8],
    store_len: usize,
    work_len: usize,
    out_len: usize,
    frame: &[u8],
) -> bool
    ensures { result ≡ misfit (setting_by own table.now store_len work_len out_len) frame.now }
{
    !table::lengths_fit(table.len(), store_len)
        || frame.len() != codec::FRAME_SIZE
        || work_len != join::AREA
        || out_len < guest::LEAST_OUT
        || (codec::MOST_ADDRESS as u32) < own
}

// Checks 3 to 6, as far as the header decides them. A short form is let through to `point_for`.
pub fn route(own: u32, h: codec::Header) -> Result<(), Refusal>
    ensures { number_in result ≡ first_of (route_checks own h) }
{
    if h.rtr == 1 || codec::MOST_DLC < h.dlc || codec::MOST_ADDRESS < h.address {
        return Err(Refusal::Barred);
    }
    if h.dir == 1 || h.address as u32 != own {
        return Err(Refusal::NotForUs);
    }
    if h.dlc == 0 {
        return Ok(());
    }
    if h.dlc == 1 || h.service < codec::LOWEST_LONG {
        return Err(Refusal::NoService);
    }
    if h.response != codec::REQUEST {
        return Err(Refusal::NotRequest);
    }
    Ok(())
}
