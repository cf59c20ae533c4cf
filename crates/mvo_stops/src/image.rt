ghost use Rattle.std.specs.Prelude.{◌≢◌, [], IfOk};

use crate::fill::{Fill, Length};
use crate::loose::Loose;
use mvo_disk::FileImage;
use std::alloc::{AllocError, Global};

/// What a stop leaves of the files that it may change.
#[derive(Drop)]
pub struct Image {
    pub fill: Fill,
    pub length: Length,
    pub files: Vec<FileImage>,
}

impl Image {
    fn of(alloc: Global, loose: &[Loose], fill: Fill, length: Length) -> Result<Image, AllocError> {
        let mut files = Vec::new(alloc);
        for one in loose {
            if !one.is_exact() {
                let bytes = one.image(alloc, fill, length)?;
                files.push(FileImage {
                    file: one.file(),
                    bytes,
                })?;
            }
        }
        Ok(Image {
            fill,
            length,
            files,
        })
    }

    /// Whether both leave the same bytes of the same files.
    fn same(&self, other: &Image) -> bool {
        self.files.len() == other.files.len()
            && self.files.iter().zip(&other.files).all(|(one, two)| one.file == two.file
                && one.bytes == two.bytes)
    }
}

/// The images that are tried of these files: each fill and length, those that differ. There is one
/// at least.
pub fn images_of(alloc: Global, loose: &[Loose]) -> Result<Vec<Image>, AllocError>
    ensures { IfOk result (λ images. images.items ≢ []) }
{
    let mut images = Vec::new(alloc);
    for fill in Fill::ALL {
        for length in Length::ALL {
            let image = Image::of(alloc, loose, fill, length)?;
            if !images.iter().any(|other: &Image| other.same(&image)) {
                images.push(image)?;
            }
        }
    }
    Ok(images)
}
