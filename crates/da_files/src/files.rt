//! The contents of the files of a command, in the order of the words that name them.

ghost use Rattle.std.specs.Prelude.{◌≡◌};
ghost use Rattle.da_files.specs.Contents.{contents_of, file_of};

/// The contents of file `i`, empty where there is none.
pub fn file(files: &[Vec<u8>], i: u32) -> &[u8]
    ensures { result.now ≡ file_of (contents_of files.now) i }
{
    match files.get(i as usize) {
        Some(file) => file,
        None => &[],
    }
}
