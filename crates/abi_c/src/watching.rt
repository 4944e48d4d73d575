// The functions of `abi::watching`, which says what they are for.
ghost use Rattle.abi.specs.Watching.{Watched, ToldNext};

#[unsafe(no_mangle)]
pub extern "C" fn sargaceu_watch(watcher: &mut [u8], kind: u8) -> bool
    ensures { Watched watcher.old kind result watcher.new }
{
    abi::watching::sargaceu_watch(watcher, kind)
}

#[unsafe(no_mangle)]
pub extern "C" fn sargaceu_next_kinds(context: u8, kind: u8, kinds: &mut [u8]) -> bool
    ensures { ToldNext context kind kinds.old result kinds.new }
{
    abi::watching::sargaceu_next_kinds(context, kind, kinds)
}
