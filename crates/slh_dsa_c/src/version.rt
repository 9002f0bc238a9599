//! The version, for programs that find the library when they are started.
ghost use Rattle.std.specs.Prelude.{◌≡◌};

// `SLH_DSA_VERSION_NUMBER` of the header.
const VERSION_NUMBER: u32 = 21_000;

/// The version of the library as a number: its first part times 1,000,000, its second times 1,000,
/// and its third.
#[unsafe(no_mangle)]
pub extern "C" fn slh_dsa_version() -> u32
    ensures { result ≡ 21000 }
{
    VERSION_NUMBER
}
