//! Two rules broken together: the one with the smaller number is told, wherever its place is.

use crate::cases::each_refuses;
use std::test::Fail;

/// Rules 1 to 17. Rules 2 and 3 can't both be broken.
const UP_TO_MODS: &str = r#"mods/alpha/lib.jar = -
- game/game.json
=> 1 JarFile at mods/alpha/lib.jar wanted - found -

mods/alpha/lib.jar = -
game/game.json = {}
=> 1 JarFile at mods/alpha/lib.jar wanted - found -

- game/game.json
game/app/B.class = class:app/B field:I
=> 2 GameMissing at game/game.json wanted - found -

game/game.json = {}
game/app/B.class = class:app/B field:I
=> 3 GameBad at game/game.json wanted - found id

mods/alpha/alpha/mixin/MainMixin.class = class:alpha/mixin/MainMixin on:Lapp/Gone; over:f
mods/a/readme.txt = -
=> 9 OutOfForm at mods/alpha/alpha/mixin/MainMixin.class wanted - found -

game/app/Main.class = ?
mods/alpha/alpha/mixin/Other.class = class:alpha/mixin/Other on:Lapp/Gone; over:f
=> 9 OutOfForm at mods/alpha/alpha/mixin/Other.class wanted - found -

mods/alpha/fabric.mod.json = []
mods/beta/readme.txt = -
=> 10 ModMissing at mods/beta/fabric.mod.json wanted - found -

mods/a/fabric.mod.json = {"schemaVersion":1,"id":"A","version":"1.0.0"}
mods/beta/fabric.mod.json = {"schemaVersion":1}
=> 11 ModBad at mods/beta/fabric.mod.json wanted - found id

mods/a/fabric.mod.json = {"schemaVersion":1,"id":"aa","version":"1.0.0","jars":[1]}
mods/beta/fabric.mod.json = {"schemaVersion":1,"id":"B","version":"1.0.0"}
=> 12 IdBad at mods/beta/fabric.mod.json wanted - found B

mods/a/fabric.mod.json = {"schemaVersion":1,"id":"aa","version":"1.0.0","depends":{"game":">=one"}}
mods/beta/fabric.mod.json = {"schemaVersion":1,"id":"beta","version":"1.0.0","depends":{"game":">=one"},"jars":{}}
=> 13 NestedJars at mods/beta/fabric.mod.json wanted - found -

mods/a/fabric.mod.json = {"schemaVersion":1,"id":"game","version":"1.0.0"}
mods/beta/fabric.mod.json = {"schemaVersion":1,"id":"beta","version":"1.0.0","depends":{"game":">=one"}}
=> 14 PredicateBad at mods/beta/fabric.mod.json wanted - found >=one

mods/a/fabric.mod.json = {"schemaVersion":1,"id":"aa","version":"1.0.0","depends":{"lib":"*"}}
mods/beta/fabric.mod.json = {"schemaVersion":1,"id":"game","version":"1.0.0"}
=> 15 DuplicateId at mods/beta/fabric.mod.json wanted - found game

mods/a/fabric.mod.json = {"schemaVersion":1,"id":"aa","version":"1.0.0","breaks":{"game":"*"}}
mods/beta/fabric.mod.json = {"schemaVersion":1,"id":"beta","version":"1.0.0","depends":{"lib":"*"}}
=> 16 DependsUnmet at mods/beta/fabric.mod.json wanted lib * found -

- mods/alpha/alpha.mixins.json
mods/beta/fabric.mod.json = {"schemaVersion":1,"id":"beta","version":"1.0.0","breaks":{"game":"*"}}
=> 17 BreaksMet at mods/beta/fabric.mod.json wanted game * found 1.0.0"#;

/// Rules 20 to 51.
const FROM_CONFIGS: &str = r#"mods/alpha/alpha.mixins.json = {}
mods/beta/fabric.mod.json = {"schemaVersion":1,"id":"beta","version":"1.0.0","mixins":["gone.json"]}
=> 20 ConfigMissing at mods/beta/gone.json wanted - found -

mods/alpha/alpha.mixins.json = {"package":"alpha.mixin","plugin":"alpha.Plugin"}
mods/beta/beta.json = {"plugin":"beta.Plugin"}
mods/beta/fabric.mod.json = {"schemaVersion":1,"id":"beta","version":"1.0.0","mixins":["beta.json"]}
=> 21 ConfigBad at mods/beta/beta.json wanted - found package

mods/alpha/alpha.mixins.json = {"package":"alpha.mixin","refmap":"alpha.refmap.json"}
mods/alpha/alpha.refmap.json = []
mods/beta/beta.json = {"package":"beta","plugin":"beta.Plugin"}
mods/beta/fabric.mod.json = {"schemaVersion":1,"id":"beta","version":"1.0.0","mixins":["beta.json"]}
=> 22 PluginNamed at mods/beta/beta.json wanted - found -

mods/alpha/alpha.mixins.json = {"package":"alpha.mixin","mixins":["Gone"]}
mods/beta/beta.json = {"package":"beta","refmap":"beta.refmap.json"}
mods/beta/beta.refmap.json = []
mods/beta/fabric.mod.json = {"schemaVersion":1,"id":"beta","version":"1.0.0","mixins":["beta.json"]}
=> 23 RefmapBad at mods/beta/beta.refmap.json wanted - found -

game/app/B.class = ?
- mods/alpha/alpha/mixin/MainMixin.class
=> 24 MixinMissing at mods/alpha/alpha.mixins.json wanted - found alpha/mixin/MainMixin

game/app/B.class = class:app/B version:53.0
game/app/C.class = ?
=> 30 ClassBad at game/app/C.class wanted layout found 0

game/app/B.class = class:app/B version:53.0
game/app/C.class = class:app;C
=> 30 ClassBad at game/app/C.class wanted reference found 19

game/app/B.class = class:app/A
game/app/C.class = class:app/C version:49.0
=> 31 VersionOutside at game/app/C.class wanted 50 to 52 found 49

# of one class
game/app/B.class = class:app/A version:53.0
=> 31 VersionOutside at game/app/B.class wanted 50 to 52 found 53

mods/alpha/alpha/mixin/MainMixin.class = class:alpha/mixin/MainMixin def:f
mods/alpha/app/B.class = class:app/C
=> 32 NamePath at mods/alpha/app/B.class wanted app/B found app/C

mods/alpha/alpha.mixins.json = {"package":"alpha.mixin","mixins":["MainMixin","Plain"]}
mods/alpha/alpha/mixin/MainMixin.class = class:alpha/mixin/MainMixin on:Lapp/Main; over:gone
mods/alpha/alpha/mixin/Plain.class = class:alpha/mixin/Plain
=> 40 MixinBad at mods/alpha/alpha/mixin/Plain.class wanted - found Mixin"#;

/// One rule at two places: the first path counts, and of mixins the one that is applied first.
const TWICE: &str = r#"mods/b.jar = -
mods/alpha/b.jar = -
=> 1 JarFile at mods/alpha/b.jar wanted - found -

game/app/C.class = class:app/C field:I
game/app/B.class = class:app/B field:I
=> 9 OutOfForm at game/app/B.class wanted - found -

mods/beta/a.txt = -
mods/a/a.txt = -
=> 10 ModMissing at mods/a/fabric.mod.json wanted - found -

game/app/C.class = ?
game/app/B.class = class:app;B
=> 30 ClassBad at game/app/B.class wanted reference found 19

game/app/B.class = class:app/A
game/app/C.class = class:app/A
=> 32 NamePath at game/app/B.class wanted app/B found app/A

game/app/B.class = class:app/B
mods/alpha/alpha.mixins.json = {"package":"alpha.mixin","mixins":["MainMixin","AMixin"]}
mods/alpha/alpha/mixin/AMixin.class = class:alpha/mixin/AMixin on:Lapp/B; over:gone
mods/alpha/alpha/mixin/MainMixin.class = class:alpha/mixin/MainMixin on:Lapp/Main; over:gone
=> 51 OverwriteMissing at mods/alpha/alpha/mixin/MainMixin.class:gone()V wanted app/Main.gone()V found -

game/app/B.class = class:app/B
mods/alpha/alpha.mixins.json = {"package":"alpha.mixin","mixins":["MainMixin","AMixin"]}
mods/alpha/alpha/mixin/AMixin.class = class:alpha/mixin/AMixin on:999,Lapp/B; over:gone
mods/alpha/alpha/mixin/MainMixin.class = class:alpha/mixin/MainMixin on:Lapp/Main; over:gone
=> 51 OverwriteMissing at mods/alpha/alpha/mixin/AMixin.class:gone()V wanted app/B.gone()V found -"#;

#[test]
fn the_least_rule_is_told(rt: HostRuntime) -> Result<(), Fail> {
    for cases in [UP_TO_MODS, FROM_CONFIGS, TWICE] {
        each_refuses(&rt, cases)?;
    }
    Ok(())
}
