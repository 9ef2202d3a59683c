//! The version of the library.

ghost use Rattle.std.specs.Prelude.{◌≡◌};
ghost use Rattle.xns_c.specs.Version.{version_text};

/// A version as text, with zeros behind it.
#[repr(C)]
#[derive(Clone, Copy)]
pub struct XnsVersion {
    pub text: [u8; 16],
}

/// The version of this library: what a program was linked with, where `XNS_VERSION` is what it was compiled with.
#[unsafe(no_mangle)]
pub extern "C" fn xns_version() -> XnsVersion
    ensures { result.text ≡ version_text }
{
    XnsVersion {
        text: [48, 46, 49, 46, 48, 0, 0, 0, 0, 0, 0, 0, 0, 0, 0, 0],
    }
}
