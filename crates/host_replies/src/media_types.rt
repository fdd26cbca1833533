//! The media types of replies.
ghost use Rattle.std.specs.Prelude.{◌≡◌};
ghost use Rattle.host_api.specs.Types.{type_of};

use crate::parts_types::PartsType;
use host_api::content_type;
use host_names::FilePath;
use http_wire::FieldText;

/// The type of what a reply has.
#[derive(Drop)]
pub enum MediaType {
    /// One that the program has.
    Fixed(FieldText<'static>),
    /// That of several parts of a file.
    Parts(PartsType),
}

/// The type of the file at a path, as a field has it.
pub fn file_type(path: &FilePath) -> FieldText<'static>
    ensures { result.text.now ≡ type_of path.now }
{
    FieldText::new(content_type(path))
}
