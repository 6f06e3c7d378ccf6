// What a mount answers.
ghost use Rattle.std.specs.Prelude.{◌≡◌, ◌∷◌, []};

// The bytes of the handle of the root: one zero byte.
pub fn get_root_mount_handle() -> [u8; 1]
    ensures { result ≡ (0 ∷ []) }
{
    [0u8; 1]
}
