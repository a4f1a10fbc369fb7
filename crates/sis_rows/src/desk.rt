//! What stays from case to case.
use crate::case::Case;
use crate::report::report;
use crate::serving::{disk_of, serve};
use anyhow::{Context, Result, bail};
use sis_disk::{Memory, Pick};
use std::alloc::{AllocError, Global};
use std::collections::BTreeMap;

/// Images with names, and the disk that the case before left.
#[derive(Drop)]
pub struct Desk {
    images: BTreeMap<String, Vec<u8>>,
    /// The image of a case that names none.
    image: Vec<u8>,
    disk: Option<Memory>,
}

// Whether the lines are no case: they are remarks, or say which image the cases behind them have.
fn is_heading(block: &str) -> bool {
    block
        .lines()
        .all(|line| line.starts_with('#') || line.starts_with("image "))
}

impl Desk {
    pub fn new(alloc: Global) -> Desk {
        Desk {
            images: BTreeMap::new(alloc),
            image: Vec::new(alloc),
            disk: None,
        }
    }

    /// The image that was kept under a name.
    pub fn kept(&self, name: &str) -> Result<&[u8]> {
        match self.images.get(name) {
            Some(image) => Ok(image.as_slice()),
            None => bail!("no such image"),
        }
    }

    /// An image that a stop after so many calls in the case before leaves.
    pub fn stopped(&self, alloc: Global, calls: u64, pick: Pick) -> Result<Vec<u8>> {
        let disk = self.disk.as_ref().context("no case before")?;
        Ok(disk.image(alloc, calls, pick)?)
    }

    /// Reads the lines of a case, and runs it. Gives the lines that stand behind it.
    pub fn run(&mut self, alloc: Global, block: &str) -> Result<String> {
        let mut case = Case::new(alloc, &self.image)?;
        for line in block.lines() {
            case.read(alloc, self, line)
                .context(format_args!("the line `{line}`"))?;
        }
        if is_heading(block) {
            self.image = case.image;
            return Ok(String::new(alloc));
        }
        self.run_case(alloc, &case)
    }

    fn run_case(&mut self, alloc: Global, case: &Case) -> Result<String> {
        let disk = match self.disk.take() {
            Some(disk) if case.goes_on => disk,
            _ => disk_of(alloc, &case.image, &case.disk)?,
        };
        let before = disk.bytes().to_vec(alloc)?;
        let left = serve(alloc, &case.given, disk)?;
        let came = report(alloc, self, case, &before, &left)?;
        self.keep(alloc, case, left.disk.bytes())?;
        self.disk = Some(left.disk);
        Ok(came)
    }

    // Keeps an image, where the case gives it a name.
    fn keep(&mut self, alloc: Global, case: &Case, image: &[u8]) -> Result<(), AllocError> {
        if let Some(name) = &case.keep {
            let name = String::from_str(alloc, name.as_str())?;
            self.images.insert(name, image.to_vec(alloc)?)?;
        }
        Ok(())
    }
}
