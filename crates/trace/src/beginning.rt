// The header: eight bytes, tested in the order size, mark, version, flags. Create decides R7 after them.
ghost use Rattle.std.specs.Prelude.{◌≡◌};
ghost use Rattle.trace.specs.Beginning.{setting, settings, header};

use crate::sizes::{HEADER_BYTES, MOST_BYTES};
use model::{Port, Setting, Settings};

// R8 at entry 0.
#[derive(Clone, Copy, PartialEq, Eq)]
pub struct BadHeader;

// Flag 8.
fn setting_of(standard: bool) -> Setting
    ensures { result ≡ setting standard }
{
    if standard {
        Setting::Standard
    } else {
        Setting::Crate
    }
}

// Flags 1 dual, 2 swapped, 4 vconn, 8 standard.
#[tactic(auto, unfolding(crate::specs::Beginning::settings))]
fn settings_of(flags: u8, hard: u8, caps: u8) -> Result<Settings, BadHeader>
    ensures { result ≡ settings flags hard caps }
{
    if flags > 15 {
        return Err(BadHeader);
    }
    Ok(Settings {
        port: Port {
            dual_role: flags % 2 == 1,
            vconn_source: flags / 4 % 2 == 1,
            setting: setting_of(flags / 8 == 1),
        },
        role_swapped: flags / 2 % 2 == 1,
        hard_limit: hard,
        caps_limit: caps,
    })
}

#[tactic(auto, unfolding(crate::specs::Beginning::header, crate::specs::Beginning::marked))]
pub fn header_of(file: &[u8]) -> Result<Settings, BadHeader>
    ensures { result ≡ header file.now }
{
    if file.len() < HEADER_BYTES || MOST_BYTES < file.len() {
        return Err(BadHeader);
    }
    if !file.starts_with(b"PES") || little_endian::half(file[3], file[4]) != 1 {
        return Err(BadHeader);
    }
    settings_of(file[5], file[6], file[7])
}
