// Which binary interface this library has.
ghost use Rattle.std.specs.Prelude.{◌≡◌};
ghost use Rattle.pelmetsavory.specs.Version.{interface_version};

// Raised by every change of an exported signature; foreign/bindings.py sees to it.
const INTERFACE_VERSION: u64 = 8;

// The version of the binary interface. A caller made for another one makes no other call.
#[unsafe(no_mangle)]
pub extern "C" fn pelmetsavory_interface_version() -> u64
    ensures { result ≡ interface_version }
{
    INTERFACE_VERSION
}
