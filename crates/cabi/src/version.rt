// The archive's version, which include/yurodekapi.h names too.
ghost use Rattle.std.specs.Prelude.{◌≡◌};
ghost use Rattle.words.specs.Words.{result_of};
ghost use Rattle.cabi.specs.Calls.{version_of};

// Version 1.3.0, as a result.
#[unsafe(no_mangle)]
pub extern "C" fn yd_version() -> u32
    ensures { result ≡ result_of 0 (version_of 1 3 0) }
{
    16973824
}
