//! Whether a translation serves an access, and the error code where it doesn't: SDM volume 3, 4.6 and 4.7.

ghost use Rattle.std.specs.Prelude.{◌≡◌};
ghost use Rattle.nk_bits.specs.AccessRights.{may};
ghost use Rattle.nk_bits.specs.Accesses.{wp_of, smep_of, fault_code};

use nk_bits::{Access, Control, Rights};

/// Whether a translation with these rights serves the access at this CPL.
pub fn may(access: Access, rights: Rights, control: &Control, cpl: u8) -> bool
    ensures { result ≡ may access rights cpl (wp_of control.now.cr0) (smep_of control.now.cr4) }
{
    let is_supervisor = cpl == 0;
    match access {
        Access::Read => is_supervisor || rights.user,
        Access::Write if is_supervisor => rights.can_write || !control.write_protect(),
        Access::Write => rights.user && rights.can_write,
        Access::Fetch if is_supervisor => rights.exec && !(smep(control.cr4) && rights.user),
        Access::Fetch => rights.exec && rights.user,
    }
}

/// The page-fault error code, by whether the page had a translation.
pub fn fault_code(access: Access, cpl: u8, is_present: bool) -> u64
    ensures { result ≡ fault_code access cpl is_present }
{
    let present = u64::from(is_present);
    let user = u64::from(cpl == 3);
    let access = match access {
        Access::Read => 0,
        Access::Write => 2,
        Access::Fetch => 16,
    };
    present + 4 * user + access
}

/// Bit 20 of CR4, SMEP.
#[tactic(auto, unfolding(nk_bits::specs::Accesses::smep_of))]
fn smep(cr4: u64) -> bool
    ensures { result ≡ smep_of cr4 }
{
    (cr4 >> 20) & 1 == 1
}
