// Which header and which archive belong together.
ghost use Rattle.std.specs.Prelude.{◌≡◌};
ghost use Rattle.abi.specs.Version.{version};

// It rises where a function's parameters, a size or a number's meaning changes.
pub const VERSION: u32 = 3;

// The version of the archive, for callers to compare with that of the header they were compiled with.
#[unsafe(no_mangle)]
pub extern "C" fn sargaceu_version() -> u32
    ensures { result ≡ version }
{
    VERSION
}
