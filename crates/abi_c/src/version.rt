// The functions of `abi::version`, which says what they are for.
ghost use Rattle.std.specs.Prelude.{◌≡◌};
ghost use Rattle.abi.specs.Version.{version};

#[unsafe(no_mangle)]
pub extern "C" fn sargaceu_version() -> u32
    ensures { result ≡ version }
{
    abi::version::sargaceu_version()
}
