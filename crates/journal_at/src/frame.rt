//! What stands behind a gate.

ghost use Rattle.std.specs.Prelude.{◌≡◌, ◌≤◌, ◌+◌, ◌++◌, ◌∷◌, [], length, vec_capacity};
ghost use Rattle.journal_at.specs.Format.{behind, IsBody};

/// The length, the body and a closed gate. There is room.
pub fn frame(room: &mut Vec<u8>, body: &[u8])
    requires body { IsBody body.now }
    requires room { 1060005 ≤ vec_capacity room.old }
    ensures items { room.new.items ≡ behind body.now ++ 0 ∷ [] }
    ensures capacity { vec_capacity room.old ≤ vec_capacity room.new }
{
    room.clear();
    if room
        .extend_from_slice(&(body.len() as u32).to_be_bytes())
        .is_err()
    {
        return;
    }
    if room.extend_from_slice(body).is_err() {
        return;
    }
    if room.push(0).is_err() {}
}
