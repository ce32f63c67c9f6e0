//! Which paths of a folder are read.
ghost use Rattle.std.specs.Prelude.{◌≡◌, ◌||◌, codes, bytes_eq, not, None, option_copied, slice_get};
ghost use Rattle.std.specs.List.{last_or, list_all};
ghost use Rattle.wv_model.specs.FolderRead.{parts, has_ending, is_last, is_loose, is_read};

/// The part of a path at a place, between its slashes.
fn part(path: &str, place: usize) -> Option<&str>
    ensures { option_copied result ≡ slice_get (parts path.now) place }
{
    path.split('/').nth(place)
}

/// The last part of a path.
fn file_name(path: &str) -> Option<&str>
    ensures { option_copied result ≡ last_or None (parts path.now) }
{
    path.split('/').last()
}

fn is_module_info(path: &str) -> bool
    ensures { result ≡ is_last (last_or None (parts path.now)) (codes "module-info.class") }
{
    match file_name(path) {
        Some(name) => name == "module-info.class",
        None => false,
    }
}

fn is_outside_meta_inf(path: &str) -> bool
    ensures { result ≡ list_all (λ part. not (bytes_eq part (codes "META-INF"))) (parts path.now) }
{
    path.split('/').all(|part| part != "META-INF")
}

/// Whether a path has two parts, and the first is `mods`.
fn lies_in_mods(path: &str) -> bool
    ensures { result ≡ is_loose (parts path.now) }
{
    match (part(path, 0), part(path, 1), part(path, 2)) {
        (Some(folder), Some(_), None) => folder == "mods",
        _ => false,
    }
}

fn is_class_or_json(path: &str) -> bool
    ensures { result ≡ (has_ending path.now (codes ".class") || has_ending path.now (codes ".json")) }
{
    let path = path.as_bytes();
    path.ends_with(b".class") || path.ends_with(b".json")
}

/// Whether the loader reads the file with this path: it ends in `.class` or `.json`, its file name
/// isn't `module-info.class`, no part of it is `META-INF`, and it isn't a file that lies in `mods/`
/// itself (our own).
#[tactic(auto, unfolding(wv_model::specs::FolderRead::is_read))]
pub fn is_read(path: &str) -> bool
    ensures { result ≡ is_read path.now }
{
    is_class_or_json(path)
        && !is_module_info(path)
        && is_outside_meta_inf(path)
        && !lies_in_mods(path)
}
