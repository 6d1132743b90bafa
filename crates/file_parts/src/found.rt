ghost use Rattle.std.specs.Prelude.{◌≡◌, ◌⊎◌, ◌↔◌, Ok, Some, None, true, IfOk, IfErr, IsErr, IsTrue};
ghost use Rattle.std.specs.IoError.{error_kind};

use std::io;
use std::io::ErrorKind;

/// Nothing is at a path, or what should be a folder on the way to it is a file.
pub fn is_missing(kind: ErrorKind) -> bool
    ensures { IsTrue result ↔ ((kind ≡ ErrorKind.NotFound) ⊎ (kind ≡ ErrorKind.NotADirectory)) }
{
    matches!(kind, ErrorKind::NotFound | ErrorKind::NotADirectory)
}

/// What a call of std found; none where there is no such file or folder.
pub fn found<T: Drop>(answer: io::Result<T>) -> io::Result<Option<T>>
    ensures there { IfOk answer (λ value. result ≡ Ok (Some value)) }
    ensures no_file { IfErr answer (λ error. error_kind error ≡ ErrorKind.NotFound → result ≡ Ok None) }
    ensures no_folder { IfErr answer
        (λ error. error_kind error ≡ ErrorKind.NotADirectory → result ≡ Ok None) }
    ensures missing { result ≡ Ok None → IsErr answer }
{
    match answer {
        Ok(value) => Ok(Some(value)),
        Err(error) if is_missing(error.kind()) => Ok(None),
        Err(error) => Err(error),
    }
}

/// Whether something stands at a path, by what came of a look at it. What can't be looked at may be there.
pub fn is_taken<T: Drop>(looked: io::Result<T>) -> bool
    ensures there { IfOk looked (λ _. result ≡ true) }
    ensures missing { IfErr looked (λ error. IsTrue result ↔ ((error_kind error ≡ ErrorKind.NotFound)
        ⊎ (error_kind error ≡ ErrorKind.NotADirectory) → ⊥)) }
{
    match looked {
        Ok(_) => true,
        Err(error) => !is_missing(error.kind()),
    }
}
