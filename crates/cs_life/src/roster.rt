// The voices that play, and voices that join them. They are ordered as they perform: by instrument number, and
// within one number in the order in which they joined.
ghost use Rattle.std.specs.Prelude.{◌≡◌, ◌<◌, OnOk};
ghost use Rattle.std.specs.List.Sorted.{IsNonDecreasingBy};
ghost use Rattle.cs_life.specs.inner.Roster.{Grew, Joined};
ghost use Rattle.cs_voice.specs.VoiceData.{VoiceData};

use cs_base::OutOfMemory;
use cs_voice::Voice;

// Inserts a voice that lasts `cycles` cycles among those that play, after all voices with its number or a
// lower one; a voice that lasts no cycle doesn't play. If memory runs out, nothing is promised about the
// voices.
pub(crate) fn join<'t>(
    voice: Voice<'t>,
    cycles: u32,
    voices: &mut Vec<Voice<'t>>,
) -> Result<(), OutOfMemory>
    ensures joined { OnOk result (0 < cycles → IsNonDecreasingBy (λ (v : VoiceData). v.number) voices.old.items
        → Joined (λ (v : VoiceData). v.number) voice.entry voices.old.items voices.new.items) }
    ensures brief { cycles ≡ 0 → voices.new.items ≡ voices.old.items }
    ensures grown { OnOk result (Grew voices.old.items voices.new.items) }
{
    if cycles == 0 {
        return Ok(());
    }
    let number = voice.number();
    let place = voices.partition_point(|other| other.number() <= number);
    voices.insert(place, voice)?;
    Ok(())
}
