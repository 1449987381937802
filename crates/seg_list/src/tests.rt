use crate::{Seg, SegList};
use std::alloc::Global;
use std::process::Abort;
use std::sync::Wait;
use std::test::Fail;
use std::thread;
use std::thread::Threads;

// A segment whose data is 16 bytes from 120 on.
fn sixteen_bytes(alloc: Global) -> Result<Seg, Fail> {
    let mut seg = Seg::new(alloc, 128)?;
    seg.set(120, 16);
    Ok(seg)
}

#[test]
fn a_new_segment_is_empty(rt: HostRuntime) -> Result<(), Fail> {
    let seg = Seg::new(rt.alloc(), 128)?;
    assert_eq!(rt; (seg.off(), seg.len()), (128, 0));
    assert!(rt; seg.is_empty());
    assert_eq!(rt; seg.data(), b"".as_slice());
    Ok(())
}

#[test]
fn data_is_written_and_read_back(rt: HostRuntime) -> Result<(), Fail> {
    let mut seg = sixteen_bytes(rt.alloc())?;
    assert_eq!(rt; (seg.off(), seg.len()), (120, 16));
    assert_eq!(rt; seg.data(), [0; 16].as_slice());
    let data = seg.data_mut();
    assert!(rt; data.len() == 16);
    data.copy_from_slice(b"sixteen letters!");
    assert_eq!(rt; seg.data(), b"sixteen letters!".as_slice());
    Ok(())
}

#[test]
fn a_part_of_the_data_is_written_alone(rt: HostRuntime) -> Result<(), Fail> {
    let mut seg = sixteen_bytes(rt.alloc())?;
    assert!(rt; seg.len() == 16);
    let part = seg.part_mut(4, 3);
    assert!(rt; part.len() == 3);
    part.copy_from_slice(b"abc");
    assert_eq!(rt; seg.data(), b"\0\0\0\0abc\0\0\0\0\0\0\0\0\0".as_slice());
    Ok(())
}

#[test]
fn the_bytes_of_the_buffer_stay(rt: HostRuntime) -> Result<(), Fail> {
    let mut seg = sixteen_bytes(rt.alloc())?;
    assert!(rt; seg.len() == 16);
    let part = seg.part_mut(4, 3);
    assert!(rt; part.len() == 3);
    part.copy_from_slice(b"abc");
    seg.set(0, 2048);
    let mut want = [0; 2048];
    want[124] = b'a';
    want[125] = b'b';
    want[126] = b'c';
    assert_eq!(rt; (seg.off(), seg.len()), (0, 2048));
    assert_eq!(rt; seg.data(), want.as_slice());
    Ok(())
}

// Each segment of the lists below is known by its offset.
fn push(alloc: Global, list: &mut SegList, off: usize) -> Result<(), Fail> {
    if list.len() == 256 || off > 2048 {
        return Err(Fail::from("no room"));
    }
    list.push_back(Seg::new(alloc, off)?)
        .ok()
        .ok_or("no memory")?;
    Ok(())
}

fn list_of(alloc: Global, offs: &[usize]) -> Result<SegList, Fail> {
    let mut list = SegList::new(alloc)?;
    for off in offs {
        push(alloc, &mut list, *off)?;
    }
    Ok(list)
}

fn assert_offs(rt: &impl Abort, list: &SegList, offs: &[usize]) {
    let mut left = list.iter();
    for off in offs {
        assert_eq!(rt; left.next().map(|seg| seg.off()), Some(*off));
    }
    assert!(rt; left.next().is_none());
}

#[test]
fn a_new_list_is_empty(rt: HostRuntime) -> Result<(), Fail> {
    let mut list = SegList::new(rt.alloc())?;
    assert_eq!(rt; list.len(), 0);
    assert!(rt; list.is_empty());
    assert!(rt; list.pop_front().is_none());
    assert!(rt; list.pop_back().is_none());
    assert_offs(&rt, &list, &[]);
    Ok(())
}

#[test]
fn pops_take_the_ends(rt: HostRuntime) -> Result<(), Fail> {
    let mut list = list_of(rt.alloc(), &[11, 22, 33])?;
    assert_offs(&rt, &list, &[11, 22, 33]);
    let first = list.pop_front().ok_or("first")?;
    let last = list.pop_back().ok_or("last")?;
    assert_eq!(rt; (first.off(), last.off()), (11, 33));
    assert_offs(&rt, &list, &[22]);
    Ok(())
}

#[test]
fn a_segment_in_the_middle_is_changed(rt: HostRuntime) -> Result<(), Fail> {
    let mut list = list_of(rt.alloc(), &[11, 22, 33])?;
    assert!(rt; list.len() == 3);
    assert_eq!(rt; list.get(2).off(), 33);
    list.get_mut(1).set(44, 5);
    assert!(rt; list.len() == 3);
    assert_eq!(rt; list.get(1).len(), 5);
    assert_offs(&rt, &list, &[11, 44, 33]);
    Ok(())
}

// A list of `count` segments whose offsets count on from `from`.
fn counting(alloc: Global, from: usize, count: usize) -> Result<SegList, Fail> {
    let mut list = SegList::new(alloc)?;
    for i in 0..count {
        push(alloc, &mut list, from.saturating_add(i))?;
    }
    Ok(list)
}

#[test]
fn append_moves_all_behind(rt: HostRuntime) -> Result<(), Fail> {
    let alloc = rt.alloc();
    for (front, back) in [(1, 255), (255, 1), (0, 256), (2, 0)] {
        let list = counting(alloc, 0, front)?;
        let other = counting(alloc, front, back)?;
        assert!(rt; list.len() + other.len() <= 256);
        let list = list.followed_by(other);
        let mut at = 0usize;
        for seg in list.iter() {
            assert_eq!(rt; seg.off(), at);
            at = at.saturating_add(1);
        }
        assert_eq!(rt; at, front + back);
    }
    Ok(())
}

#[test]
fn a_list_takes_256_segments(rt: HostRuntime) -> Result<(), Fail> {
    let mut list = SegList::new(rt.alloc())?;
    for off in 0..256 {
        push(rt.alloc(), &mut list, off)?;
    }
    assert!(rt; list.len() == 256);
    assert_eq!(rt; (list.get(0).off(), list.get(255).off()), (0, 255));
    Ok(())
}

fn sent<T: Send>(value: T) -> T {
    value
}

#[test]
fn lists_and_segments_can_be_sent(rt: HostRuntime) -> Result<(), Fail> {
    assert_eq!(rt; sent(list_of(rt.alloc(), &[11])?).len(), 1);
    assert_eq!(rt; sent(Seg::new(rt.alloc(), 22)?).off(), 22);
    Ok(())
}

// Takes the last segment in a second thread, and gives the list back.
fn popped_elsewhere<R: Threads + Wait + Sync>(rt: &R, list: SegList) -> Option<SegList> {
    let (_, list) = thread::join(
        rt,
        || (),
        move || {
            let mut list = list;
            let _ = list.pop_back()?;
            Some(list)
        },
    );
    list
}

#[test]
fn a_list_goes_to_another_thread_and_back(rt: HostRuntime) -> Result<(), Fail> {
    let list = list_of(rt.alloc(), &[11, 22, 33])?;
    let mut list = popped_elsewhere(&rt, list).ok_or("a list")?;
    push(rt.alloc(), &mut list, 44)?;
    assert_offs(&rt, &list, &[11, 22, 44]);
    Ok(())
}
