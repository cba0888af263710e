//! The files of a run: the one that says the machine, and an image and a schedule where these aren't left out.
ghost use Rattle.std.specs.Prelude.{◌≡◌, List, ℕ, Option, option_map, map, ◌++◌, IfOk, IfErr};
ghost use Rattle.lisa_outcomes.specs.NamedFiles.{file_at};
ghost use Rattle.lisa_outcomes.specs.RunFiles.{run_bytes};
ghost use Rattle.lisa_outcomes.specs.RunViews.{names_of, bytes_of};

/// The names of a run's files.
#[derive(Clone, Copy, Debug)]
pub struct RunNames<'a> {
    pub main: &'a str,
    pub image: Option<&'a str>,
    pub schedule: Option<&'a str>,
}

/// The bytes of a run's files.
#[derive(Clone, Copy, Debug)]
pub struct RunBytes<'a> {
    pub main: &'a [u8],
    pub image: Option<&'a [u8]>,
    pub schedule: Option<&'a [u8]>,
}

/// The bytes of the file at a place of those that were read; none where there is no such file.
pub fn file_at(all: &[Vec<u8>], place: usize) -> &[u8]
    ensures { result.now ≡ file_at (map (λ bytes. bytes.items) all.now) place }
{
    if place < all.len() {
        return &all[place];
    }
    &[]
}

/// The bytes of a run's files among those that were read: of the first, and of those that aren't left out.
pub fn run_bytes<'a>(names: RunNames<'_>, all: &'a [Vec<u8>]) -> RunBytes<'a>
    ensures { bytes_of result ≡ run_bytes (names_of names.entry) (map (λ bytes. bytes.items) all.now) }
{
    let main = file_at(all, 0);
    let image = match names.image {
        Some(_) => Some(file_at(all, 1)),
        None => None,
    };
    let place = match names.image {
        Some(_) => 2,
        None => 1,
    };
    let schedule = match names.schedule {
        Some(_) => Some(file_at(all, place)),
        None => None,
    };
    RunBytes {
        main,
        image,
        schedule,
    }
}
