//! Files that are held as pairs of a name and its bytes.
ghost use Rattle.std.specs.Prelude.{◌≡◌, ◌++◌, ◌-◌, ◌<◌, ◌≤◌, None, Some, length, drop, take, min, IfSome, IfNone};
ghost use Rattle.pg_outside.specs.Files.{contents_of};
ghost use Rattle.pg_outside.specs.NamedFiles.{named_files, bytes_at};

/// The place of the first file of this name.
pub(crate) fn place_of(files: &[(String, Vec<u8>)], name: &str) -> Option<usize>
    ensures within { IfSome result (λ place. place < length files.now) }
    ensures found { IfSome result (λ place. contents_of name.now (named_files files.now)
        ≡ Some (bytes_at (named_files files.now) place)) }
    ensures missing { IfNone result (contents_of name.now (named_files files.now) ≡ None) }
{
    for (place, (file_name, _)) in files.iter().enumerate() {
        if file_name.as_str() == name {
            return Some(place);
        }
    }
    None
}

/// The bytes of the file at this place.
pub(crate) fn bytes_at(files: &[(String, Vec<u8>)], place: usize) -> &[u8]
    requires { place < length files.now }
    ensures { result.now ≡ bytes_at (named_files files.now) place }
{
    files[place].1.as_slice()
}

/// Copies the next bytes of `bytes`, from `offset` on and at most `piece`, to the front of `buf`, and
/// answers how many.
pub(crate) fn copy_piece(bytes: &[u8], offset: usize, piece: usize, buf: &mut [u8]) -> usize
    requires { offset ≤ length bytes.now }
    ensures amount { result ≡ min piece (min (length buf.old) (length bytes.now - offset)) }
    ensures front { take result buf.new ≡ take result (drop offset bytes.now) }
    ensures rest { drop result buf.new ≡ drop result buf.old }
{
    let (_, left) = bytes.split_at(offset);
    let count = piece.min(buf.len().min(left.len()));
    buf[..count].copy_from_slice(left.split_at(count).0);
    count
}
