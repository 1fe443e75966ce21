ghost use Rattle.std.specs.Prelude.{◌↔◌, IsTrue};
ghost use Rattle.edge_traits.specs.FileMaps.{IsStaged};

/// Whether the path ends in `.farm~`, as the names of files that are still being written do. It takes no memory.
pub fn is_staged(path: &[u8]) -> bool
    ensures { IsTrue result ↔ IsStaged path.now }
{
    path.ends_with(b".farm~")
}
