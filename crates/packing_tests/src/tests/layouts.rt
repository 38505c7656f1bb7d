//! Texts of both layouts, and their first bad place.

use arc_num::{MAX_INSTANCE, Memory};
use mvp_reader::read_mvp;
use packing_laws::ReadFault;
use std::alloc::Global;
use std::process::Abort;
use vbp_reader::read_vbp;

/// How the text of an instance is laid out.
#[derive(Clone, Copy)]
pub enum Layout {
    /// One type of bins.
    Vbp,
    /// Several types of bins, and several forms of items.
    Mvp,
}

pub fn fault_of(alloc: Global, layout: Layout, text: &[u8]) -> Option<ReadFault> {
    if text.len() > MAX_INSTANCE {
        return None;
    }
    let read = match layout {
        Layout::Vbp => read_vbp(alloc, text),
        Layout::Mvp => read_mvp(alloc, text),
    };
    match read {
        Ok(_) => None,
        Err(fault) => Some(fault),
    }
}

/// Each of these texts has this first bad place, or none.
pub fn expect_faults(
    rt: &impl Abort,
    alloc: Global,
    layout: Layout,
    rows: &[(&str, Option<ReadFault>)],
) {
    for (text, fault) in rows {
        assert_eq!(rt; fault_of(alloc, layout, text.as_bytes()), *fault);
    }
}

/// The same bytes so many times behind others.
pub fn repeated(alloc: Global, front: &[u8], part: &[u8], times: u32) -> Result<Vec<u8>, Memory> {
    let mut text = Vec::from_slice(alloc, front)?;
    for _time in 0..times {
        text.extend_from_slice(part)?;
    }
    Ok(text)
}
