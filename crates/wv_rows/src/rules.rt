//! Each rule of the program, broken in each way. A case is the lines that change the small folder, and the
//! place of the rule.

use crate::cases::each_refuses;
use std::test::Fail;

/// Rules 1 to 3, on what the folder lists and on its game.
const FOLDER: &str = r#"mods/alpha/lib.jar = -
=> 1 JarFile at mods/alpha/lib.jar wanted - found -

mods/alpha/META-INF/jars/lib.jar = -
a.jar = -
=> 1 JarFile at a.jar wanted - found -

- game/game.json
=> 2 GameMissing at game/game.json wanted - found -

game/game.json = ["id","version","main"]
=> 3 GameBad at game/game.json wanted - found json

game/game.json = {"version":"1.0.0","main":"app/Main"}
=> 3 GameBad at game/game.json wanted - found id

game/game.json = {"id":"game","version":1,"main":"app/Main"}
=> 3 GameBad at game/game.json wanted - found version

game/game.json = {"id":"game","version":"1.0.0","main":"app;Main"}
=> 3 GameBad at game/game.json wanted - found main

game/game.json = {"id":"game","version":"1.0.0","main":"app/Main","builtin":["java"]}
=> 3 GameBad at game/game.json wanted - found builtin"#;

/// Rule 9, on class files that are of no form.
const FORM: &str = r#"# neither a thin class nor a thin mixin
game/app/B.class = class:app/B field:I
=> 9 OutOfForm at game/app/B.class wanted - found -

# a class at two paths
mods/alpha/app/Main.class = class:app/Main main def:f
=> 9 OutOfForm at game/app/Main.class wanted - found -

# a target that isn't there
mods/alpha/alpha/mixin/MainMixin.class = class:alpha/mixin/MainMixin on:Lapp/Gone; over:f
=> 9 OutOfForm at mods/alpha/alpha/mixin/MainMixin.class wanted - found -

# a target that is no thin class
mods/alpha/alpha/mixin/MainMixin.class = class:alpha/mixin/MainMixin on:Lbeta/B; over:f
mods/beta/beta/B.class = class:beta/B field:I
mods/beta/fabric.mod.json = {"schemaVersion":1,"id":"beta","version":"1.0.0"}
=> 9 OutOfForm at mods/alpha/alpha/mixin/MainMixin.class wanted - found -

# a target that is a mixin
mods/alpha/alpha/mixin/MainMixin.class = class:alpha/mixin/MainMixin on:Lalpha/mixin/Other; over:f
mods/alpha/alpha/mixin/Other.class = class:alpha/mixin/Other on:Lapp/Main; over:f
=> 9 OutOfForm at mods/alpha/alpha/mixin/MainMixin.class wanted - found -

# two mixins of one target
game/app/B.class = class:app/B def:f
mods/alpha/alpha/mixin/AMixin.class = class:alpha/mixin/AMixin on:Lapp/B; over:f
mods/alpha/alpha/mixin/Other.class = class:alpha/mixin/Other on:Lapp/Main; over:f
=> 9 OutOfForm at mods/alpha/alpha/mixin/MainMixin.class wanted - found -

# two annotations
mods/alpha/alpha/mixin/MainMixin.class = class:alpha/mixin/MainMixin on:Lapp/Main; on:Lapp/Main; over:f
=> 9 OutOfForm at mods/alpha/alpha/mixin/MainMixin.class wanted - found -

# a class that names a mixin: by its name, an array's, and in descriptors
game/app/B.class = class:app/B names:alpha/mixin/MainMixin
=> 9 OutOfForm at game/app/B.class wanted - found -

game/app/B.class = class:app/B names:[[Lalpha/mixin/MainMixin;
=> 9 OutOfForm at game/app/B.class wanted - found -

game/app/B.class = class:app/B typed:[Lalpha/mixin/MainMixin;
=> 9 OutOfForm at game/app/B.class wanted - found -

game/app/B.class = class:app/B method-type:(ILa;Lalpha/mixin/MainMixin;)V
=> 9 OutOfForm at game/app/B.class wanted - found -

# a mixin that names another
game/app/B.class = class:app/B def:f
mods/alpha/alpha/mixin/AMixin.class = class:alpha/mixin/AMixin on:Lapp/B; over:f call:alpha/mixin/MainMixin.f
=> 9 OutOfForm at mods/alpha/alpha/mixin/AMixin.class wanted - found -"#;

/// Rules 10 to 14, on the description of each mod.
const DESCRIPTIONS: &str = r#"- mods/alpha/fabric.mod.json
=> 10 ModMissing at mods/alpha/fabric.mod.json wanted - found -

mods/beta/readme.txt = -
=> 10 ModMissing at mods/beta/fabric.mod.json wanted - found -

mods/alpha/fabric.mod.json = [{"schemaVersion":1}]
=> 11 ModBad at mods/alpha/fabric.mod.json wanted - found json

mods/alpha/fabric.mod.json = {"schemaVersion":0,"id":"alpha","version":"1.0.0"}
=> 11 ModBad at mods/alpha/fabric.mod.json wanted - found schemaVersion

mods/alpha/fabric.mod.json = {"schemaVersion":1,"version":"1.0.0"}
=> 11 ModBad at mods/alpha/fabric.mod.json wanted - found id

mods/alpha/fabric.mod.json = {"schemaVersion":1,"id":"alpha"}
=> 11 ModBad at mods/alpha/fabric.mod.json wanted - found version

mods/alpha/fabric.mod.json = {"schemaVersion":1,"id":"alpha","version":"1.0.0","provides":"beta"}
=> 11 ModBad at mods/alpha/fabric.mod.json wanted - found provides

mods/alpha/fabric.mod.json = {"schemaVersion":1,"id":"alpha","version":"1.0.0","environment":"both"}
=> 11 ModBad at mods/alpha/fabric.mod.json wanted - found environment

mods/alpha/fabric.mod.json = {"schemaVersion":1,"id":"alpha","version":"1.0.0","mixins":"alpha.mixins.json"}
=> 11 ModBad at mods/alpha/fabric.mod.json wanted - found mixins

mods/alpha/fabric.mod.json = {"schemaVersion":1,"id":"alpha","version":"1.0.0","depends":["game"]}
=> 11 ModBad at mods/alpha/fabric.mod.json wanted - found depends

mods/alpha/fabric.mod.json = {"schemaVersion":1,"id":"alpha","version":"1.0.0","breaks":null}
=> 11 ModBad at mods/alpha/fabric.mod.json wanted - found breaks

mods/alpha/fabric.mod.json = {"schemaVersion":1,"id":"Alpha","version":"1.0.0"}
=> 12 IdBad at mods/alpha/fabric.mod.json wanted - found Alpha

mods/alpha/fabric.mod.json = {"schemaVersion":1,"id":"alpha","version":"1.0.0","provides":["beta","b"]}
=> 12 IdBad at mods/alpha/fabric.mod.json wanted - found b

mods/alpha/fabric.mod.json = {"schemaVersion":1,"id":"alpha","version":"1.0.0","jars":[{"file":"lib.jar"}]}
=> 13 NestedJars at mods/alpha/fabric.mod.json wanted - found -

mods/alpha/fabric.mod.json = {"schemaVersion":1,"id":"alpha","version":"1.0.0","depends":{"game":[">=1",">=one"]}}
=> 14 PredicateBad at mods/alpha/fabric.mod.json wanted - found >=one

mods/alpha/fabric.mod.json = {"schemaVersion":1,"id":"alpha","version":"1.0.0","breaks":{"game":"<"}}
=> 14 PredicateBad at mods/alpha/fabric.mod.json wanted - found <"#;

/// Rules 15 to 17, on the mods together.
const TOGETHER: &str =
    r#"mods/beta/fabric.mod.json = {"schemaVersion":1,"id":"game","version":"1.0.0"}
=> 15 DuplicateId at mods/beta/fabric.mod.json wanted - found game

game/game.json = {"id":"game","version":"1.0.0","main":"app/Main","builtin":{"java":"8"}}
mods/beta/fabric.mod.json = {"schemaVersion":1,"id":"beta","version":"1.0.0","provides":["java"]}
=> 15 DuplicateId at mods/beta/fabric.mod.json wanted - found java

mods/beta/fabric.mod.json = {"schemaVersion":1,"id":"alpha","version":"2.0.0"}
=> 15 DuplicateId at mods/beta/fabric.mod.json wanted - found alpha

mods/beta/fabric.mod.json = {"schemaVersion":1,"id":"beta","version":"1.0.0","depends":{"lib":["^1.2",">=3"]}}
=> 16 DependsUnmet at mods/beta/fabric.mod.json wanted lib ^1.2 or >=3 found -

mods/beta/fabric.mod.json = {"schemaVersion":1,"id":"beta","version":"1.0.0","depends":{"game":">=2"}}
=> 16 DependsUnmet at mods/beta/fabric.mod.json wanted game >=2 found 1.0.0

mods/beta/fabric.mod.json = {"schemaVersion":1,"id":"beta","version":"1.0.0","breaks":{"alpha":["<1","1.x"]}}
=> 17 BreaksMet at mods/beta/fabric.mod.json wanted alpha <1 or 1.x found 1.0.0"#;

/// Rules 20 to 24, on configurations.
const CONFIGS: &str = r#"- mods/alpha/alpha.mixins.json
=> 20 ConfigMissing at mods/alpha/alpha.mixins.json wanted - found -

mods/alpha/alpha.mixins.txt = {"package":"alpha.mixin"}
mods/alpha/fabric.mod.json = {"schemaVersion":1,"id":"alpha","version":"1.0.0","mixins":["alpha.mixins.txt"]}
=> 20 ConfigMissing at mods/alpha/alpha.mixins.txt wanted - found -

mods/alpha/alpha.mixins.json = {"package":"alpha.mixin"
=> 21 ConfigBad at mods/alpha/alpha.mixins.json wanted - found json

mods/alpha/alpha.mixins.json = {"mixins":["MainMixin"]}
=> 21 ConfigBad at mods/alpha/alpha.mixins.json wanted - found package

mods/alpha/alpha.mixins.json = {"package":"alpha.mixin","mixins":"MainMixin"}
=> 21 ConfigBad at mods/alpha/alpha.mixins.json wanted - found mixins

mods/alpha/alpha.mixins.json = {"package":"alpha.mixin","client":[1]}
=> 21 ConfigBad at mods/alpha/alpha.mixins.json wanted - found client

mods/alpha/alpha.mixins.json = {"package":"alpha.mixin","server":{}}
=> 21 ConfigBad at mods/alpha/alpha.mixins.json wanted - found server

mods/alpha/alpha.mixins.json = {"package":"alpha.mixin","refmap":null}
=> 21 ConfigBad at mods/alpha/alpha.mixins.json wanted - found refmap

mods/alpha/alpha.mixins.json = {"package":"alpha.mixin","priority":"1"}
=> 21 ConfigBad at mods/alpha/alpha.mixins.json wanted - found priority

mods/alpha/alpha.mixins.json = {"package":"alpha.mixin","mixinPriority":1.5}
=> 21 ConfigBad at mods/alpha/alpha.mixins.json wanted - found mixinPriority

mods/alpha/alpha.mixins.json = {"package":"alpha.mixin","injectors":{"defaultRequire":true}}
=> 21 ConfigBad at mods/alpha/alpha.mixins.json wanted - found injectors.defaultRequire

mods/alpha/alpha.mixins.json = {"package":"alpha.mixin","overwrites":{"requireAnnotations":1}}
=> 21 ConfigBad at mods/alpha/alpha.mixins.json wanted - found overwrites.requireAnnotations

mods/alpha/alpha.mixins.json = {"package":"alpha.mixin","plugin":"alpha.Plugin"}
=> 22 PluginNamed at mods/alpha/alpha.mixins.json wanted - found -

mods/alpha/alpha.mixins.json = {"package":"alpha.mixin","refmap":"alpha.refmap.json"}
mods/alpha/alpha.refmap.json = {"mappings":{"alpha/mixin/MainMixin":["f"]}}
=> 23 RefmapBad at mods/alpha/alpha.refmap.json wanted - found -

- mods/alpha/alpha/mixin/MainMixin.class
=> 24 MixinMissing at mods/alpha/alpha.mixins.json wanted - found alpha/mixin/MainMixin

mods/alpha/alpha.mixins.json = {"package":"alpha.mixin","mixins":["MainMixin"],"server":["MainMixin","on.Server"]}
=> 24 MixinMissing at mods/alpha/alpha.mixins.json wanted - found alpha/mixin/on/Server"#;

/// Rules 30 to 51, on class files and mixins.
const CLASSES: &str = r#"game/app/B.class = ?
=> 30 ClassBad at game/app/B.class wanted layout found 0

# the target of a mixin
game/app/Main.class = ?
=> 30 ClassBad at game/app/Main.class wanted layout found 0

# behind a name of five bytes the number of the name has the offset 19
game/app/B.class = class:app;B
=> 30 ClassBad at game/app/B.class wanted reference found 19

game/app/B.class = class:app/B version:49.0
=> 31 VersionOutside at game/app/B.class wanted 50 to 52 found 49

mods/alpha/alpha/mixin/MainMixin.class = class:alpha/mixin/MainMixin version:53.0 on:Lapp/Main; over:f
=> 31 VersionOutside at mods/alpha/alpha/mixin/MainMixin.class wanted 50 to 52 found 53

game/app/B.class = class:app/C
=> 32 NamePath at game/app/B.class wanted app/B found app/C

mods/alpha/alpha/mixin/MainMixin.class = class:alpha/mixin/Other on:Lapp/Main; over:f
=> 32 NamePath at mods/alpha/alpha/mixin/MainMixin.class wanted alpha/mixin/MainMixin found alpha/mixin/Other

mods/alpha/alpha/mixin/MainMixin.class = class:alpha/mixin/MainMixin def:f
=> 40 MixinBad at mods/alpha/alpha/mixin/MainMixin.class wanted - found Mixin

mods/alpha/alpha/mixin/MainMixin.class = class:alpha/mixin/MainMixin on:Lapp/Main; over:gone
=> 51 OverwriteMissing at mods/alpha/alpha/mixin/MainMixin.class:gone()V wanted app/Main.gone()V found -

# another descriptor
mods/alpha/alpha/mixin/MainMixin.class = class:alpha/mixin/MainMixin on:Lapp/Main; over:main
=> 51 OverwriteMissing at mods/alpha/alpha/mixin/MainMixin.class:main()V wanted app/Main.main()V found -"#;

#[test]
fn each_rule_is_told(rt: HostRuntime) -> Result<(), Fail> {
    for cases in [FOLDER, FORM, DESCRIPTIONS, TOGETHER, CONFIGS, CLASSES] {
        each_refuses(&rt, cases)?;
    }
    Ok(())
}
